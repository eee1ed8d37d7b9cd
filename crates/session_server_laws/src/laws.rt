//! What holds of a connection at its cache, whatever comes and whenever.

ghost use Rattle.std.specs.List.{concat};
ghost use Rattle.std.specs.Prelude.{◌≡◌, ◌++◌, ◌∷◌, [], List, length};
ghost use Rattle.session_bytes.specs.Sending.{AreWhole};
ghost use Rattle.session_laws.specs.Editions.{PayloadEdition};
ghost use Rattle.session_laws.specs.Pipes.{Bytes};
ghost use Rattle.session_server.specs.declared.settings.ServerSettings.{ServerSettings};
ghost use Rattle.session_server_laws.specs.Services.{IsRunOfService, Service, Turn};
ghost use Rattle.session_server_laws.specs.Talks.{AnswersInOrder, TellsInOrder, answers_to};

/// Whatever bytes come, in whichever pieces they are read and sent, whenever there are new data,
/// and wherever the connection breaks: the machine is told of the units that came, each once and in
/// their order, and the bytes that are passed to the socket are its answers to the queries among
/// them, in that order, each whole answer before the next; between them there are notifies, and at
/// the end at most one report. No answer begins after the end, or the break.
pub fn queries_are_answered_in_order()
    ensures { (s : ServerSettings) (had : List PayloadEdition) (w : Service)
        → IsRunOfService s had w → AnswersInOrder had w }
{}

/// In any such run, if a router sends these units, the machine is told of the first ones of them;
/// while a unit that came whole is left, `next` returns `Hear`, unless an answer is being sent or
/// the connection has ended; and the next unit is then taken. So none is lost while the connection
/// goes on, however many come at once.
pub fn no_query_is_lost()
    ensures { (s : ServerSettings) (had : List PayloadEdition) (w : Service)
        (units : List Bytes) (later : Bytes)
        → IsRunOfService s had w → AreWhole units → concat units ≡ w.came ++ later
        → TellsInOrder units w }
{}

/// There is a run in which a router sends two queries at once, in 20 bytes, and is sent all data,
/// in 52 bytes, and then a cache reset, in 8.
pub fn two_queries_are_answered()
    ensures { (s : ServerSettings) × (had : List PayloadEdition) × (w : Service)
        × (first second : Turn) × IsRunOfService s had w × (w.turns ≡ second ∷ first ∷ [])
        × (length w.came ≡ 20) × (length first.bytes ≡ 52) × (length second.bytes ≡ 8)
        × (w.handed ≡ answers_to w.turns) }
{}

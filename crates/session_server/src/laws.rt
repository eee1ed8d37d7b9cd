//! What holds of a server's door, whichever connections come and go, of its connections, and of
//! what it keeps.

ghost use Rattle.std.specs.Prelude.{◌≡◌, ◌≢◌, ◌<◌, ◌^◌, ◌++◌, ◌∷◌, ℕ, List, [], None};
ghost use Rattle.std.specs.Prelude.{true, false};
ghost use Rattle.session_cache.specs.CacheSteps.{IsCacheStep};
ghost use Rattle.session_cache.specs.declared.cache.Cache.{Cache};
ghost use Rattle.session_cache.specs.declared.event.Answer.{Answer};
ghost use Rattle.session_cache.specs.declared.event.Answer.TheVariants as answers;
ghost use Rattle.session_cache.specs.declared.event.CacheEvent.TheVariants as events;
ghost use Rattle.session_cache.specs.declared.event.Present.{Present};
ghost use Rattle.session_server.specs.Doors.{IsHeld, KeepsLimits, entry_at, has_inside};
ghost use Rattle.session_server.specs.Keeping.{kept_version, keeps_more, retry_after};
ghost use Rattle.session_server.specs.Limits.{usual_server_settings};
ghost use Rattle.session_server.specs.Paces.{IsServed, SendsWhole, broken_off, connection_wakes_at};
ghost use Rattle.session_server.specs.Paces.{is_free, next_at, reads_now};
ghost use Rattle.session_server.specs.declared.connection.Connection.{Connection};
ghost use Rattle.session_server.specs.declared.connection.Next.TheVariants as nexts;
ghost use Rattle.session_server.specs.declared.door.Door.{Door};
ghost use Rattle.session_server.specs.declared.door.Entry.{Entry};
ghost use Rattle.session_server.specs.declared.door.Entry.TheVariants as entries;
ghost use Rattle.session_server.specs.declared.settings.ServerSettings.{ServerSettings};

/// Whichever connections come and go: the door counts exactly the open connections, and they never
/// exceed its limits. A connection that leaves is always counted.
pub fn door_keeps_its_limits()
    ensures limits { (s : ServerSettings) (d : Door) (inside : List Entry) → IsHeld s d inside
        → KeepsLimits s d inside }
    ensures counted { (s : ServerSettings) (d : Door) (before after : List Entry) (e : Entry)
        → IsHeld s d (before ++ e ∷ after) → has_inside d e ≡ true }
{}

/// There is a door that refuses: the premise of `door_keeps_its_limits` is met.
pub fn door_refuses()
    ensures { (s : ServerSettings) × (d : Door) × (inside : List Entry) × IsHeld s d inside
        × (entry_at d true ≡ entries.Refuse) }
{}

/// Whatever its host calls, the answers of a connection are sent one after the other, each
/// completely before the next one begins.
pub fn answers_are_sent_whole()
    ensures { (s : ServerSettings) (k : Connection) (sizes : List ℕ) (bytes : ℕ)
        → IsServed s k sizes bytes → SendsWhole k sizes bytes }
{}

/// A host that waits or sends as `next` returns, and calls again at the time of `wakes`, is in
/// time: no deadline passes while it waits or sends.
pub fn no_limit_is_passed()
    ensures waits { (k : Connection) (n number : ℕ) (c : Cache) (p : Present)
        → next_at k n c p number ≡ nexts.Wait → n < connection_wakes_at k c p }
    ensures sends { (k : Connection) (n number : ℕ) (c : Cache) (p : Present)
        → next_at k n c p number ≡ nexts.Send → n < connection_wakes_at k c p }
    ensures finishes { (k : Connection) (n number : ℕ) (c : Cache) (p : Present)
        → next_at k n c p number ≡ nexts.Finish → n < connection_wakes_at k c p }
{}

/// A host that is told to wait reads, and one that is told to send doesn't: what its router sends
/// waits until the answer is sent.
pub fn who_waits_reads()
    ensures waits { (k : Connection) (n number : ℕ) (c : Cache) (p : Present)
        → next_at k n c p number ≡ nexts.Wait → reads_now k ≡ true }
    ensures sends { (k : Connection) (n number : ℕ) (c : Cache) (p : Present)
        → next_at k n c p number ≡ nexts.Send → reads_now k ≡ false }
{}

/// A connection that broke is closed, at once and without a limit as the reason, and nothing begins
/// on it.
pub fn broken_connections_are_closed()
    ensures next { (k : Connection) (n number : ℕ) (c : Cache) (p : Present)
        → next_at (broken_off k) n c p number ≡ nexts.Close None }
    ensures wakes { (k : Connection) (c : Cache) (p : Present)
        → connection_wakes_at (broken_off k) c p ≡ 0 }
    ensures free { (k : Connection) → is_free (broken_off k) ≡ false }
{}

/// A machine that is told the time when `next` returns `Tick` acts: its host doesn't loop forever.
pub fn ticks_act()
    ensures { (k : Connection) (n number : ℕ) (c c' : Cache) (p : Present) (a : Answer)
        → n < 2 ^ 63 → next_at k n c p number ≡ nexts.Tick
        → IsCacheStep c n p events.Tick a c' → a ≢ answers.Wait }
{}

/// There is a connection that is sent an answer of 52 bytes in two parts, and after it a notify of
/// 12 bytes, which doesn't begin while a part is unsent, and a report: it meets the premises of
/// `answers_are_sent_whole`, `no_limit_is_passed` and `ticks_act`.
pub fn notify_follows_an_answer()
    ensures whole { (s : ServerSettings) × (k : Connection) × IsServed s k (12 ∷ 52 ∷ []) 64
        × (is_free k ≡ true) }
    ensures waits { (s : ServerSettings) × (k : Connection) × (c : Cache) × (p : Present)
        × IsServed s k (52 ∷ []) 52 × (next_at k 100 c p 1 ≡ nexts.Wait)
        × (connection_wakes_at k c p ≡ 90000010) }
    ensures sends { (s : ServerSettings) × (k : Connection) × (c : Cache) × (p : Present)
        × IsServed s k (52 ∷ []) 20 × (next_at k 25 c p 1 ≡ nexts.Send)
        × (connection_wakes_at k c p ≡ 30020) }
    ensures finishes { (s : ServerSettings) × (k : Connection) × (c : Cache) × (p : Present)
        × IsServed s k (16 ∷ 12 ∷ 52 ∷ []) 80 × (next_at k 420 c p 2 ≡ nexts.Finish)
        × (connection_wakes_at k c p ≡ 10400) }
    ensures ticks { (s : ServerSettings) × (k : Connection) × (c c' : Cache) × (p : Present)
        × IsServed s k (52 ∷ []) 52 × (next_at k 300 c p 2 ≡ nexts.Tick)
        × IsCacheStep c 300 p events.Tick answers.Notify c' }
{}

/// New data of version 1 are converted to version 2 at first, and stay in version 1 behind data of
/// their session in it; data of version 2 stay in version 2. Of 64 MiB of changes the last byte is
/// kept, and none above. Data are saved again after 1, 2, 4, 8, 16, 32, 60 and 60 seconds.
pub fn what_is_kept()
    ensures first { (p : Present) → p.has ≡ false → kept_version p 0 7 1 ≡ 2 }
    ensures follows { (p : Present) → p.has ≡ true → p.session ≡ 7 → kept_version p 1 7 1 ≡ 1 }
    ensures higher { (p : Present) → p.has ≡ true → p.session ≡ 7 → kept_version p 1 7 2 ≡ 2 }
    ensures other { (p : Present) → p.has ≡ true → p.session ≡ 8 → kept_version p 1 7 1 ≡ 2 }
    ensures last { keeps_more usual_server_settings 67108000 864 ≡ true }
    ensures above { keeps_more usual_server_settings 67108000 865 ≡ false }
    ensures waits { (retry_after 0 ≡ 1000) × (retry_after 1000 ≡ 2000)
        × (retry_after 2000 ≡ 4000) × (retry_after 4000 ≡ 8000) × (retry_after 8000 ≡ 16000)
        × (retry_after 16000 ≡ 32000) × (retry_after 32000 ≡ 60000)
        × (retry_after 60000 ≡ 60000) }
{}

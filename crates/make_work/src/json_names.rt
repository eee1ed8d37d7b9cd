//! The names that validators use for arrays and parts of payloads.

ghost use Rattle.std.specs.Prelude.{◌≡◌, ◌==◌, bytes_eq, is_some, option_map};
ghost use Rattle.make_work.specs.JsonNames.{holding_named, is_family, is_joiner, is_part};
ghost use Rattle.make_work.specs.JsonNames.{is_plainly_one_of, key_names, plain, usual_name};
ghost use Rattle.make_work.specs.PrivateJson.{after_byte};

/// The kind of the payloads of an array.
#[derive(Clone, Copy, Debug, PartialEq, Eq)]
pub enum Kind {
    /// Route origins.
    Origins,
    /// Router keys.
    RouterKeys,
    /// ASPAs.
    Aspas,
}

/// The contents of a member of the top object.
#[derive(Clone, Copy, Debug, PartialEq, Eq)]
pub enum Holding {
    /// Payloads of one kind.
    Payloads(Kind),
    /// ASPAs for each address family.
    Authorizations,
    /// Metadata of the validator.
    Metadata,
}

/// A part of a payload.
#[derive(Clone, Copy, Debug, PartialEq, Eq)]
pub enum Part {
    /// The number of its autonomous system.
    Asn,
    /// Its prefix.
    Prefix,
    /// Its max length.
    MaxLength,
    /// The identifier of its key.
    KeyIdentifier,
    /// Its key.
    KeyInfo,
    /// The autonomous system whose providers it lists.
    Customer,
    /// Its providers.
    Providers,
    /// When it expires.
    Expires,
}

impl Part {
    /// Whether a member of this name is the part.
    pub fn is_named(self, name: &str) -> bool
        ensures { result ≡ is_part self name.now }
    {
        match self {
            Part::Asn => is_plainly(name, "asn"),
            Part::Prefix => is_prefix(name),
            Part::MaxLength => is_max_length(name),
            Part::KeyIdentifier => is_plainly(name, "ski"),
            Part::KeyInfo => is_key_info(name),
            Part::Customer => is_plainly(name, "customer") || is_plainly(name, "customerasid"),
            Part::Providers => is_plainly(name, "providers"),
            Part::Expires => is_plainly(name, "expires"),
        }
    }

    /// The name by which a refusal calls the part if it is missing.
    pub fn usual_name(self) -> &'static str
        ensures { result.now ≡ usual_name self }
    {
        match self {
            Part::Asn => "asn",
            Part::Prefix => "prefix",
            Part::MaxLength => "maxLength",
            Part::KeyIdentifier => "ski",
            Part::KeyInfo => "pubkey",
            Part::Customer => "customer",
            Part::Providers => "providers",
            Part::Expires => "expires",
        }
    }
}

fn is_prefix(name: &str) -> bool
    ensures { result ≡ is_part Part.Prefix name.now }
{
    is_plainly(name, "prefix") || is_plainly(name, "ipprefix")
}

fn is_max_length(name: &str) -> bool
    ensures { result ≡ is_part Part.MaxLength name.now }
{
    is_plainly(name, "maxlength")
        || is_plainly(name, "maxlen")
        || is_plainly(name, "maxprefixlength")
        || is_plainly(name, "maxprefixlen")
}

fn is_key_info(name: &str) -> bool
    ensures { result ≡ is_part Part.KeyInfo name.now }
{
    is_plainly(name, "pubkey") || is_plainly(name, "routerpublickey") || is_plainly(name, "spki")
}

/// The contents of a member of this name of the top object, if the name is known.
pub fn holding_named(name: &str) -> Option<Holding>
    ensures { result ≡ holding_named name.now }
{
    if is_plainly(name, "roas") {
        Some(Holding::Payloads(Kind::Origins))
    } else if holds_keys(name) {
        Some(Holding::Payloads(Kind::RouterKeys))
    } else if is_plainly(name, "aspas") || is_plainly(name, "aspa") {
        Some(Holding::Payloads(Kind::Aspas))
    } else if is_plainly(name, "providerauthorizations") {
        Some(Holding::Authorizations)
    } else if is_plainly(name, "metadata") {
        Some(Holding::Metadata)
    } else {
        None
    }
}

fn holds_keys(name: &str) -> bool
    ensures { result ≡ is_plainly_one_of key_names name.now }
{
    is_plainly(name, "bgpseckeys") || is_plainly(name, "routerkeys")
}

/// The name by which a refusal calls the ASPAs of this address family, if it is one.
pub fn family_named(name: &str) -> Option<&'static str>
    ensures { is_some result ≡ is_family name.now }
{
    if is_plainly(name, "ipv4") {
        Some("provider_authorizations.ipv4")
    } else if is_plainly(name, "ipv6") {
        Some("provider_authorizations.ipv6")
    } else {
        None
    }
}

/// Whether a name is this one, without regard to case, spaces, `_` and `-`.
fn is_plainly(name: &str, known: &str) -> bool
    ensures { result ≡ bytes_eq known.now (plain name.now) }
{
    let mut left = known.as_bytes();
    for byte in name.as_bytes() {
        let byte = *byte;
        if !is_joiner(byte) {
            let Some(rest) = after_first(left, byte.to_ascii_lowercase()) else {
                return false;
            };
            left = rest;
        }
    }
    left.is_empty()
}

/// The bytes after the first, if the first is this byte.
fn after_first(bytes: &[u8], byte: u8) -> Option<&[u8]>
    ensures { option_map (λ rest. rest.now) result ≡ after_byte bytes.now byte }
{
    if bytes.is_empty() || bytes[0] != byte {
        return None;
    }
    Some(&bytes[1..])
}

/// Whether the byte joins the words of a name.
fn is_joiner(byte: u8) -> bool
    ensures { result ≡ is_joiner byte }
{
    byte == b'_' || byte == b'-' || byte == b' '
}

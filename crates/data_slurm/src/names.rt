//! The names of the members of a SLURM file.

ghost use Rattle.std.specs.Prelude.{◌≡◌, bytes_eq};
ghost use Rattle.data_slurm.specs.SlurmNames.{array_name, first_kind, group_name, may_have};
ghost use Rattle.data_slurm.specs.SlurmNames.{second_kind};

/// The members of the top object that contain arrays.
#[derive(Clone, Copy, Debug)]
pub enum Group {
    /// `validationOutputFilters`
    Filters,
    /// `locallyAddedAssertions`
    Assertions,
}

/// The arrays of a SLURM file.
#[derive(Clone, Copy, Debug)]
pub enum Kind {
    /// `prefixFilters`
    PrefixFilter,
    /// `bgpsecFilters`
    KeyFilter,
    /// `prefixAssertions`
    PrefixAssertion,
    /// `bgpsecAssertions`
    KeyAssertion,
}

/// The objects of a SLURM file.
#[derive(Clone, Copy, Debug)]
pub enum Form {
    /// The object at the top.
    File,
    /// An object with two arrays.
    Group(Group),
    /// An item of an array.
    Item(Kind),
}

impl Group {
    /// The name of the group's member.
    pub fn name(self) -> &'static str
        ensures { result.now ≡ group_name self }
    {
        match self {
            Group::Filters => "validationOutputFilters",
            Group::Assertions => "locallyAddedAssertions",
        }
    }

    /// The array of the group about route origins.
    pub fn first(self) -> Kind
        ensures { result ≡ first_kind self }
    {
        match self {
            Group::Filters => Kind::PrefixFilter,
            Group::Assertions => Kind::PrefixAssertion,
        }
    }

    /// The array of the group about router keys.
    pub fn second(self) -> Kind
        ensures { result ≡ second_kind self }
    {
        match self {
            Group::Filters => Kind::KeyFilter,
            Group::Assertions => Kind::KeyAssertion,
        }
    }
}

impl Kind {
    /// The name of the array.
    pub fn array(self) -> &'static str
        ensures { result.now ≡ array_name self }
    {
        match self {
            Kind::PrefixFilter => "prefixFilters",
            Kind::KeyFilter => "bgpsecFilters",
            Kind::PrefixAssertion => "prefixAssertions",
            Kind::KeyAssertion => "bgpsecAssertions",
        }
    }
}

impl Form {
    /// Reports whether such an object may have a member of this name.
    pub fn may_have(self, name: &str) -> bool
        ensures { result ≡ may_have self name.now }
    {
        match self {
            Form::File => file_may_have(name),
            Form::Group(group) => group_may_have(group, name),
            Form::Item(Kind::PrefixFilter) => prefix_filter_may_have(name),
            Form::Item(Kind::KeyFilter) => key_filter_may_have(name),
            Form::Item(Kind::PrefixAssertion) => prefix_assertion_may_have(name),
            Form::Item(Kind::KeyAssertion) => key_assertion_may_have(name),
        }
    }
}

fn file_may_have(name: &str) -> bool
    ensures { result ≡ may_have Form.File name.now }
{
    is(name, "slurmVersion")
        || is(name, "validationOutputFilters")
        || is(name, "locallyAddedAssertions")
}

fn group_may_have(group: Group, name: &str) -> bool
    ensures { result ≡ may_have (Form.Group group) name.now }
{
    match group {
        Group::Filters => is(name, "prefixFilters") || is(name, "bgpsecFilters"),
        Group::Assertions => is(name, "prefixAssertions") || is(name, "bgpsecAssertions"),
    }
}

fn prefix_filter_may_have(name: &str) -> bool
    ensures { result ≡ may_have (Form.Item Kind.PrefixFilter) name.now }
{
    is(name, "prefix") || is(name, "asn") || is(name, "comment")
}

fn key_filter_may_have(name: &str) -> bool
    ensures { result ≡ may_have (Form.Item Kind.KeyFilter) name.now }
{
    is(name, "asn") || is(name, "SKI") || is(name, "comment")
}

fn prefix_assertion_may_have(name: &str) -> bool
    ensures { result ≡ may_have (Form.Item Kind.PrefixAssertion) name.now }
{
    is(name, "prefix") || is(name, "asn") || is(name, "maxPrefixLength") || is(name, "comment")
}

fn key_assertion_may_have(name: &str) -> bool
    ensures { result ≡ may_have (Form.Item Kind.KeyAssertion) name.now }
{
    is(name, "asn") || is(name, "SKI") || is(name, "routerPublicKey") || is(name, "comment")
}

fn is(name: &str, known: &str) -> bool
    ensures { result ≡ bytes_eq known.now name.now }
{
    known == name
}

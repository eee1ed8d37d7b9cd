//! The timing parameters of a cache.

ghost use Rattle.std.specs.Prelude.{◌≡◌, ◌*◌};

use std::time::Duration;

/// The timing parameters of a cache, in seconds (RFC 8210 section 6).
#[derive(Clone, Copy, Debug, PartialEq, Eq, Hash)]
pub struct Timing {
    /// How long to wait before the next query.
    pub refresh: u32,
    /// How long to wait after a failed attempt before the next one.
    pub retry: u32,
    /// How long data may be used without a successful refresh.
    pub expire: u32,
}

impl Timing {
    ghost use Rattle.std.specs.Duration.{as_nanos};

    /// How long to wait before the next query.
    pub fn refresh_duration(self) -> Duration
        ensures { as_nanos result ≡ self.refresh * 1_000_000_000 }
    {
        Duration::from_secs(self.refresh as u64)
    }
}

/// The recommended timings: an hour, ten minutes, two hours.
impl Default for Timing {
    ghost use Rattle.rtr_base.specs.Timings.{default_timing};

    ghost is_default = { λ t. t ≡ default_timing };

    fn default() -> Self {
        Timing {
            refresh: 3600,
            retry: 600,
            expire: 7200,
        }
    }
}

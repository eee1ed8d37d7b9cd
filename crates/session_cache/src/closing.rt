//! How connections end.

ghost use Rattle.std.specs.Prelude.{◌≡◌, ◌<◌, None, Some, Option, ℕ, true};
ghost use Rattle.session_cache.specs.CacheRules.{CacheRule, once_closed, report_version};
ghost use Rattle.session_cache.specs.Serving.{ServesFault, closes_with, reports};
ghost use Rattle.session_cache.specs.declared.event.CacheEvent.TheVariants as events;
ghost use Rattle.session_cache.specs.declared.event.Present.{Present};

use crate::cache::Cache;
use crate::event::{Answer, Closing, OwedReport, Reason};
use rtr_base::error_code::ErrorCode;
use session_router::head::Fault;
use session_router::settings::HIGHEST;

impl Cache {
    /// Ends the connection.
    pub(crate) fn close(&mut self, report: Option<OwedReport>, reason: Reason) -> Answer
        ensures answer { result ≡ closes_with report reason }
        ensures after { self.new ≡ once_closed self.old }
    {
        self.live = false;
        Answer::End(Closing { report, reason })
    }

    /// Ends the connection with a report about a unit of this version. The report has the version
    /// of the connection; without one, that of the unit if it is supported, otherwise the highest.
    pub(crate) fn report(&mut self, version: u8, code: ErrorCode, reason: Reason) -> Answer
        ensures answer { result ≡ reports (report_version self.old version) code.0 reason }
        ensures after { self.new ≡ once_closed self.old }
    {
        let version = if self.asked {
            self.version
        } else {
            version.min(HIGHEST)
        };
        self.close(Some(OwedReport { version, code }), reason)
    }

    /// Takes a refused unit. Its version is checked first (RFC 8210 section 7), and no report is
    /// sent about an error report (section 5.11).
    pub(crate) fn faulty(&mut self, fault: &Fault) -> Answer
        requires live { self.old.live ≡ true }
        ensures rule { (n : ℕ) (p : Present)
            → CacheRule self.old n p (events.Faulty fault.now) result self.new }
        ensures serves { ServesFault self.old fault.now result }
    {
        match fault.code {
            None => self.close(None, Reason::Faulty),
            Some(_) if self.asked && fault.version != self.version => {
                self.report(
                    fault.version,
                    ErrorCode::UNEXPECTED_PROTOCOL_VERSION,
                    Reason::OtherVersion,
                )
            }
            Some(_) if !self.asked && fault.version > HIGHEST => {
                self.report(
                    fault.version,
                    ErrorCode::UNSUPPORTED_PROTOCOL_VERSION,
                    Reason::NoVersion,
                )
            }
            Some(code) => self.report(fault.version, code, Reason::Faulty),
        }
    }
}

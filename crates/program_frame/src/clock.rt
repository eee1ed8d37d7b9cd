//! The clock.

use std::io;
use std::time::{SystemTime, UNIX_EPOCH};

/// The seconds since the epoch, the first second of 1970; 0 if the clock shows an earlier time.
pub fn seconds_since_epoch(rt: &HostRuntime) -> io::Result<u64> {
    match SystemTime::now(rt)?.duration_since(UNIX_EPOCH) {
        Ok(time) => Ok(time.as_secs()),
        Err(_) => Ok(0),
    }
}

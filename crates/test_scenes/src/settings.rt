//! The settings of a scene's end.

use session_cache::settings::CacheSettings;
use session_router::settings::Settings;
use std::test::Fail;

/// Sets what a line says of a router.
pub fn set_router(settings: &mut Settings, key: &str, value: &str) -> Result<(), Fail> {
    match key {
        "version" => settings.highest = value.parse::<u8>()?,
        "pause" => settings.pause = value.parse::<u32>()?,
        "connect-limit" => settings.connect_limit = value.parse::<u32>()?,
        "response-limit" => settings.response_limit = value.parse::<u32>()?,
        "refresh" => settings.refresh = value.parse::<u32>()?,
        "retry" => settings.retry = value.parse::<u32>()?,
        "expire" => settings.expire = value.parse::<u32>()?,
        "most-units" => settings.most_units = value.parse::<u32>()?,
        "most-bytes" => settings.most_bytes = value.parse::<u64>()?,
        "chance" => settings.chance = value.parse::<u16>()?,
        _ => return Err(Fail::new(format_args!("{key} is no setting"))),
    }
    Ok(())
}

/// Sets what a line says of a cache.
pub fn set_cache(settings: &mut CacheSettings, key: &str, value: &str) -> Result<(), Fail> {
    match key {
        "usual" => {}
        "first-limit" => settings.first_limit = value.parse::<u32>()?,
        "idle-limit" => settings.idle_limit = value.parse::<u32>()?,
        "pause" => settings.pause = value.parse::<u32>()?,
        "refuses" => settings.refuses = true,
        _ => return Err(Fail::new(format_args!("{key} is no setting"))),
    }
    Ok(())
}

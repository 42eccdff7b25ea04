//! The names that records have for places of the configuration.
ghost use Rattle.std.specs.Prelude.{◌≡◌, option_copied, slice_get};
ghost use Rattle.std.specs.Str.{chars, encode_utf8_all};
ghost use Rattle.sds_history.specs.history.Lanes as lanes;

use sds_types::{ChannelDef, Config};

/// The channel at a place.
fn channel_at(config: &Config, channel: u32) -> Option<&ChannelDef>
    ensures { option_copied result ≡ slice_get config.now.channels channel }
{
    config.channels.inner().get(channel as usize)
}

/// The name of the channel at a place, which is empty where there is none.
pub(crate) fn channel_name(config: &Config, channel: u32) -> &str
    ensures chars { chars result.now ≡ lanes.channel_name config.now channel }
    ensures bytes { result.now ≡ encode_utf8_all (lanes.channel_name config.now channel) }
{
    match channel_at(config, channel) {
        Some(channel) => channel.id.as_str(),
        None => "",
    }
}

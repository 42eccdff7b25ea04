//! Laws of messages that go as text.
ghost use Rattle.sds_received.specs.Messages.{MessagesAreReadBack, MessagesHaveChannels};

/// The batches of a message come back from its text, whatever parts the message has. The state of
/// its node is sound, and so is the configuration; the expressions of its transforms are of
/// characters, and none of them has too many columns for keys.
pub fn messages_are_read_back()
    ensures back { MessagesAreReadBack }
{}

/// The channels of a message's batches are channels of the configuration, where its node's state is
/// sound.
pub fn messages_have_channels()
    ensures channels { MessagesHaveChannels }
{}

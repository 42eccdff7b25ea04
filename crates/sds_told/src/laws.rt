//! Laws of replies, over the definitions alone.
ghost use Rattle.std.specs.Prelude.{◌≡◌, ◌↔◌, ℕ, IsTrue, List, Some, Ok};
ghost use Rattle.std.specs.List.{list_all};
ghost use Rattle.sds_types.specs.declared.ack.Ack.{Ack};
ghost use Rattle.sds_screen.specs.Words.{reply_text};
ghost use Rattle.sds_told.specs.Replies.{ack_of, acks_of, is_readable_ack, pairs};
ghost use Rattle.sds_told.specs.Saying.{Says};

/// The law that a written reply reads back: it gives its acks, whatever acks it has whose batch is
/// 1 to 2^62, whose row fits 32 bits and whose rule is 1 to 16.
pub fn written_acks_read_back()
    ensures { (acks : List Ack) → IsTrue (list_all is_readable_ack acks)
        → acks_of (pairs (reply_text acks)) ≡ Ok acks }
{}

/// The law that a pair says an ack exactly where its texts have the form of one.
pub fn pairs_say_what_they_write()
    ensures { (name value : List ℕ) (ack : Ack)
        → (ack_of name value ≡ Some ack) ↔ Says name value ack }
{}

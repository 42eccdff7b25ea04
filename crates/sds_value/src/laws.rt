ghost use Rattle.std.specs.Prelude.{◌≡◌, ◌<◌, List, ℕ, IsTrue, Ok, Err};
ghost use Rattle.std.specs.Cmp.{IsTotalOrder};
ghost use Rattle.std.specs.declared.cmp.Ordering.TheVariants.{Equal};
ghost use Rattle.std.specs.Str.{chars, all_scalars, encode_utf8_all};
ghost use Rattle.sds_value.specs.declared.kind.Binary.{Binary};
ghost use Rattle.sds_value.specs.declared.kind.Binary.TheVariants.{Base64};
ghost use Rattle.sds_value.specs.declared.kind.Kind.{Kind};
ghost use Rattle.sds_value.specs.declared.kind.Kind.TheVariants.{Varchar, Varbinary};
ghost use Rattle.sds_value.specs.declared.refusal.ValueRefusal.TheVariants.{TooLong};
ghost use Rattle.sds_value.specs.declared.kind.Value.{Value};
ghost use Rattle.sds_value.specs.Binaries.{are_bytes};
ghost use Rattle.sds_value.specs.Values.{fits, is_written, printed, value_of, value_order};

/// The law that the printed text of a value within the limits of its kind reads as that value, but for bytes in the plain
/// form, which are not written.
pub fn printed_reads_back()
    ensures { (kind : Kind) (form : Binary) (value : Value) → IsTrue (is_written kind form) → IsTrue (fits kind value) → value_of kind form (chars (printed kind form value)) ≡ Ok value }
{}

/// The law that what a text reads as is a value of the kind, within its limits.
pub fn read_value_fits()
    ensures { (kind : Kind) (form : Binary) (text : List ℕ) (value : Value) → IsTrue (all_scalars text) → value_of kind form text ≡ Ok value → IsTrue (fits kind value) }
{}

/// The law that a text reads as at most one value.
pub fn text_reads_as_one_value()
    ensures { (kind : Kind) (form : Binary) (text : List ℕ) (a b : Value) → value_of kind form text ≡ Ok a → value_of kind form text ≡ Ok b → a ≡ b }
{}

/// The law that under base64 no text but the printed one reads as bytes. The bytes of a text in UTF-8 are below 256.
pub fn base64_reads_what_it_prints()
    ensures { (most : ℕ) (text : List ℕ) (value : Value) → IsTrue (are_bytes (encode_utf8_all text)) → value_of (Varbinary most) Base64 text ≡ Ok value → encode_utf8_all text ≡ printed (Varbinary most) Base64 value }
{}

/// The law that a text or bytes that are too long read under a greater length.
pub fn too_long_reads_under_more()
    ensures text { (most : ℕ) (form : Binary) (text : List ℕ) → value_of (Varchar most) form text ≡ Err TooLong → (more : ℕ) × (value : Value) × (most < more) × (value_of (Varchar more) form text ≡ Ok value) }
    ensures bytes { (most : ℕ) (form : Binary) (text : List ℕ) → value_of (Varbinary most) form text ≡ Err TooLong → (more : ℕ) × (value : Value) × (most < more) × (value_of (Varbinary more) form text ≡ Ok value) }
{}

/// The law that the order of values is total: each two values compare, the other way round they compare the other way
/// round, what is below something is below all that is above it, and values that compare as equal are one value.
pub fn order_is_total()
    ensures total { IsTotalOrder value_order }
    ensures equal { (a b : Value) → value_order a b ≡ Equal → a ≡ b }
{}

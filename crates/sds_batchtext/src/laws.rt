//! Laws of documents, over the definitions alone.
ghost use Rattle.std.specs.Prelude.{◌≡◌, ◌++◌, ◌∷◌, [], ℕ, Bool, List, true, false, IsTrue};
ghost use Rattle.std.specs.List.{list_all};
ghost use Rattle.sds_types.specs.declared.document.BatchDoc.{BatchDoc};
ghost use Rattle.sds_types.specs.declared.document.End.TheVariants.{Clean};
ghost use Rattle.sds_value.specs.Names.{is_name_text};
ghost use Rattle.sds_batchtext.specs.Documents.{batches_in, document_of};
ghost use Rattle.sds_batchtext.specs.Writable.{is_writable, is_batch_text};
ghost use Rattle.sds_batchtext.specs.Writing.{head_text, batch_text, text_of};

/// The law that a written document reads back: it gives its batches and is clean, whatever batches
/// it has that have a written form and whose texts are made of characters.
pub fn written_documents_read_back()
    ensures { (node : List ℕ) (batches : List BatchDoc) → IsTrue (is_name_text node)
        → IsTrue (list_all is_writable batches) → IsTrue (list_all is_batch_text batches)
        → document_of (text_of node batches) ≡ record { batches = batches; ending = Clean } }
{}

/// The law that a document is written in order: its head, and then each batch after those before
/// it.
pub fn documents_are_written_in_order()
    ensures head { (node : List ℕ) → text_of node [] ≡ head_text node }
    ensures batch { (node : List ℕ) (batches : List BatchDoc) (batch : BatchDoc)
        → text_of node (batches ++ batch ∷ []) ≡ text_of node batches ++ batch_text batch }
{}

/// The law that a prefix of a document gives a prefix of its batches: what follows a text, and its
/// end, add batches after those that it has.
pub fn batches_go_on()
    ensures on { (finished : Bool) (front more : List ℕ)
        → (rest : List BatchDoc) × (batches_in finished (front ++ more) ≡ batches_in false front
        ++ rest) }
    ensures end { (text : List ℕ) → (rest : List BatchDoc)
        × (batches_in true text ≡ batches_in false text ++ rest) }
{}

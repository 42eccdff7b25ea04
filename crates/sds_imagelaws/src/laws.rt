//! Laws of the records that a node keeps.
ghost use Rattle.sds_imagelaws.specs.ActEdits.{EditsOfErrors, EditsOfLoads};
ghost use Rattle.sds_imagelaws.specs.ActEdits.{EditsOfRoutes, EditsOfWrites};
ghost use Rattle.sds_imagelaws.specs.Apart.{ImagesTellStatesApart};
ghost use Rattle.sds_imagelaws.specs.Images.{AskedCallsMakeImages, EditsMakeImages};
ghost use Rattle.sds_imagelaws.specs.Images.{NewNodesHaveOneRecord};
ghost use Rattle.sds_imagelaws.specs.Reading.{AgreeingRecordsAreImages, ImagesAreRead};
ghost use Rattle.sds_imagelaws.specs.Reading.{ImagesAreTold, ToldRecordsAreGood};
ghost use Rattle.sds_imagelaws.specs.Widths.{ActsKeepWidths};

/// Where the records of a sound state are kept and the edits of an act are committed that leaves a
/// sound state, the records of the state that it leaves are kept. Its steps put rows whose values
/// are of their tables' columns.
pub fn edits_make_images()
    ensures make { EditsMakeImages }
{}

/// Where the records of a sound state are kept and a call is asked rightly, the edits of the act
/// that it makes lead to the records of the state after it. So a node that commits the edits of
/// each of its acts always keeps the records of what it has.
pub fn asked_calls_make_images()
    ensures make { AskedCallsMakeImages }
{}

/// The edits of a write, of a load, of a batch that broke a rule and of a routing run, by the state
/// before them alone. What each of the other acts puts is told by the act itself.
pub fn edits_go_by_act()
    ensures write { EditsOfWrites }
    ensures load { EditsOfLoads }
    ensures error { EditsOfErrors }
    ensures route { EditsOfRoutes }
{}

/// The records of a node tell all that it has: two sound states under one configuration that have
/// the same records are one state.
pub fn images_tell_states_apart()
    ensures apart { ImagesTellStatesApart }
{}

/// Records whose keys ascend and each of which tells a part, where one tells the node itself and no
/// part disagrees with the configuration or with those before it, are the records of the state that
/// they tell; and that state is sound, and its numbers have the widths that they are kept in.
pub fn agreeing_records_are_images()
    ensures image { AgreeingRecordsAreImages }
{}

/// The records of a sound state whose numbers have the widths that they are kept in tell that
/// state: each tells a part, and no part disagrees. So a keeper that has the records of what a node
/// has is read without a refusal, and the node goes on with what it had.
pub fn images_are_told()
    ensures told { ImagesAreTold }
{}

/// So the records of a sound state whose numbers have the widths that they are kept in are read as
/// a state: they are refused only where memory runs out.
pub fn images_are_read()
    ensures read { ImagesAreRead }
{}

/// The numbers of a node stay within the widths that they are kept in: where a sound state has them
/// and a call is asked rightly, whose batch or acks name rows by 32 bits, the state after its act
/// has them too. A write captures no more changes than it has rows, an error has the row of an ack
/// or of a batch, and all other numbers are counted, to 2^62 at most.
pub fn acts_keep_widths()
    ensures keep { ActsKeepWidths }
{}

/// Of records whose keys ascend and each of which tells a part none is bad, so of the records of a
/// sound state none is.
pub fn told_records_are_good()
    ensures good { ToldRecordsAreGood }
{}

/// A node that begins keeps one record, which is its own.
pub fn new_nodes_have_one_record()
    ensures one { NewNodesHaveOneRecord }
{}

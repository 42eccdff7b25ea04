//! What a person sees of a node.
ghost use Rattle.std.specs.Prelude.{◌≡◌, ◌++◌, true, OnErr, OnOk};
ghost use Rattle.sds_screen.specs.Listed.{batches_text};
ghost use Rattle.sds_screen.specs.Shown.{tables_text};

use crate::Node;
use sds_base::NoMemory;
use sds_outside::Keeper;
use sds_shown::{put_batches, put_tables};

impl<K: Keeper> Node<K> {
    ghost use Rattle.sds_node.specs.Meaning.{IsNode, has};

    /// Puts the tables of the node, in the order of the configuration: of each the word `table` with
    /// its name, then its rows by key, each as a line of its values as they are printed. The node is
    /// sure. Out of memory leaves `out` as it was.
    pub fn put_tables(&self, out: &mut Vec<u8>) -> Result<(), NoMemory>
        requires node { IsNode K.is_open K.keeping self.now }
        requires sure { self.now.sure ≡ true }
        ensures ok { OnOk result (out.new.items
            ≡ out.old.items ++ tables_text self.now.config (has self.now)) }
        ensures err { OnErr result (out.new.items ≡ out.old.items) }
    {
        put_tables(self.alloc, &self.config, &self.state, out)
    }

    /// Puts the batches of the node, a line each: those that go out by number, with their status and,
    /// of an error, its row and rule; then what came in of each lane. The node is sure. Out of memory
    /// leaves `out` as it was.
    pub fn put_batches(&self, out: &mut Vec<u8>) -> Result<(), NoMemory>
        requires { self.now.sure ≡ true }
        ensures ok { OnOk result (out.new.items
            ≡ out.old.items ++ batches_text self.now.config (has self.now)) }
        ensures err { OnErr result (out.new.items ≡ out.old.items) }
    {
        put_batches(self.alloc, &self.config, &self.state, out)
    }
}

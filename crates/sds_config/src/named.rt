//! Entries that others name, and the place of a name.
ghost use Rattle.std.specs.Prelude.{◌≡◌, ◌<◌, IfSome, length};
ghost use Rattle.std.specs.Str.{chars};
ghost use Rattle.sds_config.specs.Fields as wanted;

use crate::{ChannelDef, RouterDef, TransformDef, TriggerDef};
use sds_base::Txt;
use sds_value::{ColumnDef, TableDef};

/// An entry that others name.
pub trait Named {
    ghost use Rattle.std.specs.Prelude.{List, ℕ};

    ghost name_of: { Self → List ℕ };

    fn name(&self) -> &Txt
        ensures { result.now ≡ name_of self.now };
}

impl Named for Txt {
    ghost name_of = { λ name. name };

    fn name(&self) -> &Txt {
        self
    }
}

impl Named for ChannelDef {
    ghost name_of = { λ channel. channel.id };

    fn name(&self) -> &Txt {
        &self.id
    }
}

impl Named for TableDef {
    ghost name_of = { λ table. table.name };

    fn name(&self) -> &Txt {
        &self.name
    }
}

impl Named for ColumnDef {
    ghost name_of = { λ column. column.name };

    fn name(&self) -> &Txt {
        &self.name
    }
}

impl Named for TriggerDef {
    ghost name_of = { λ trigger. trigger.id };

    fn name(&self) -> &Txt {
        &self.id
    }
}

impl Named for RouterDef {
    ghost name_of = { λ router. router.id };

    fn name(&self) -> &Txt {
        &self.id
    }
}

impl Named for TransformDef {
    ghost name_of = { λ transform. transform.id };

    fn name(&self) -> &Txt {
        &self.id
    }
}

/// The place of the first entry of this name, from 0.
pub fn place_of<N: Named>(entries: &[N], name: &str) -> Option<usize>
    ensures place { result ≡ wanted.place_of N.name_of entries.now (chars name.now) }
    ensures bound { IfSome result (λ place. place < length entries.now) }
{
    entries.iter().position(|entry| entry.name().is(name))
}

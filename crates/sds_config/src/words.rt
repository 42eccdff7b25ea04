//! Settings that the file writes as one of some words.
ghost use Rattle.std.specs.Prelude.{◌≡◌};

use crate::{
    Action, Algorithm, ColumnKind, ColumnPolicy, DeleteAction, DetectType, Point, ResolveType,
    RouterKind,
};

/// A setting that the file writes as one of some words.
pub trait Word: Copy {
    ghost use Rattle.std.specs.Prelude.{List, ℕ, Option};

    ghost word_of: { List ℕ → Option Self };

    /// The setting of the word.
    fn read(word: &str) -> Option<Self>
        ensures { result ≡ word_of word.now };
}

impl Word for Action {
    ghost use Rattle.sds_config.specs.Words.{action_of};

    ghost word_of = { action_of };

    fn read(word: &str) -> Option<Action> {
        if word == "P" {
            Some(Action::P)
        } else if word == "W" {
            Some(Action::W)
        } else {
            None
        }
    }
}

impl Word for Algorithm {
    ghost use Rattle.sds_config.specs.Words.{algorithm_of};

    ghost word_of = { algorithm_of };

    fn read(word: &str) -> Option<Algorithm> {
        if word == "default" {
            Some(Algorithm::Default)
        } else if word == "transactional" {
            Some(Algorithm::Transactional)
        } else if word == "nontransactional" {
            Some(Algorithm::Nontransactional)
        } else {
            None
        }
    }
}

impl Word for RouterKind {
    ghost use Rattle.sds_config.specs.Words.{router_kind_of};

    ghost word_of = { router_kind_of };

    fn read(word: &str) -> Option<RouterKind> {
        if word == "default" {
            Some(RouterKind::Default)
        } else if word == "column" {
            Some(RouterKind::Column)
        } else if word == "lookuptable" {
            Some(RouterKind::LookupTable)
        } else if word == "subselect" {
            Some(RouterKind::Subselect)
        } else {
            None
        }
    }
}

impl Word for Point {
    ghost use Rattle.sds_config.specs.Words.{point_of};

    ghost word_of = { point_of };

    fn read(word: &str) -> Option<Point> {
        if word == "EXTRACT" {
            Some(Point::Extract)
        } else if word == "LOAD" {
            Some(Point::Load)
        } else {
            None
        }
    }
}

impl Word for DeleteAction {
    ghost use Rattle.sds_config.specs.Words.{delete_action_of};

    ghost word_of = { delete_action_of };

    fn read(word: &str) -> Option<DeleteAction> {
        if word == "DEL_ROW" {
            Some(DeleteAction::DelRow)
        } else if word == "NONE" {
            Some(DeleteAction::Nothing)
        } else if word == "UPDATE_COL" {
            Some(DeleteAction::UpdateCol)
        } else {
            None
        }
    }
}

impl Word for ColumnPolicy {
    ghost use Rattle.sds_config.specs.Words.{column_policy_of};

    ghost word_of = { column_policy_of };

    fn read(word: &str) -> Option<ColumnPolicy> {
        if word == "SPECIFIED" {
            Some(ColumnPolicy::Specified)
        } else if word == "IMPLIED" {
            Some(ColumnPolicy::Implied)
        } else {
            None
        }
    }
}

impl Word for ColumnKind {
    ghost use Rattle.sds_config.specs.Words.{column_kind_of};

    ghost word_of = { column_kind_of };

    fn read(word: &str) -> Option<ColumnKind> {
        if word == "copy" {
            Some(ColumnKind::Copy)
        } else if word == "remove" {
            Some(ColumnKind::Remove)
        } else if word == "const" {
            Some(ColumnKind::Const)
        } else if word == "left" {
            Some(ColumnKind::Left)
        } else if word == "substr" {
            Some(ColumnKind::Substr)
        } else if word == "valueMap" {
            Some(ColumnKind::ValueMap)
        } else if word == "variable" {
            Some(ColumnKind::Variable)
        } else if word == "additive" {
            Some(ColumnKind::Additive)
        } else {
            None
        }
    }
}

impl Word for DetectType {
    ghost use Rattle.sds_config.specs.Words.{detect_type_of};

    ghost word_of = { detect_type_of };

    fn read(word: &str) -> Option<DetectType> {
        if word == "USE_PK_DATA" {
            Some(DetectType::UsePkData)
        } else if word == "USE_OLD_DATA" {
            Some(DetectType::UseOldData)
        } else if word == "USE_CHANGED_DATA" {
            Some(DetectType::UseChangedData)
        } else if word == "USE_TIMESTAMP" {
            Some(DetectType::UseTimestamp)
        } else if word == "USE_VERSION" {
            Some(DetectType::UseVersion)
        } else {
            None
        }
    }
}

impl Word for ResolveType {
    ghost use Rattle.sds_config.specs.Words.{resolve_type_of};

    ghost word_of = { resolve_type_of };

    fn read(word: &str) -> Option<ResolveType> {
        if word == "FALLBACK" {
            Some(ResolveType::Fallback)
        } else if word == "IGNORE" {
            Some(ResolveType::Ignore)
        } else if word == "MANUAL" {
            Some(ResolveType::Manual)
        } else if word == "NEWER_WINS" {
            Some(ResolveType::NewerWins)
        } else {
            None
        }
    }
}

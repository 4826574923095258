// The one byte that a segment or a rule begins with, or that is a kind.
ghost use Rattle.std.specs.Prelude.{ℕ, List, []};
ghost use Rattle.rule.specs.Machine.{Want, kind, rule, segment};
ghost use Rattle.rule.specs.Signs.{SignLaws};

use crate::head::{RuleHead, SegmentHead};
use crate::leaf::Kind;
use fault::TextCause;

pub trait Sign: Copy + TryFrom<u8, Error = TextCause> {
    // How many nodes the byte is.
    const NODES: u8;

    ghost NODES: { ℕ };

    // what is wanted where the byte stands
    ghost want: { Want };

    // the byte, and what must be read after it
    ghost spelling: { Self → List ℕ };

    ghost left: { Self → List Want };

    ghost laws: { SignLaws want spelling left NODES Self.TryFrom.try_from_gives };
}

impl Sign for Kind {
    ghost use Rattle.rule.specs.Spelling.{spelled_kind};
    ghost use Rattle.rule.specs.SignsLemmas.{kind_sign};

    // The kind after `U` or `R` is no node.
    const NODES: u8 = 0;

    ghost NODES = { 0 };

    ghost want = { kind };

    ghost spelling = { spelled_kind };

    ghost left = { λ _. [] };

    ghost laws = { kind_sign };
}

impl Sign for SegmentHead {
    ghost use Rattle.rule.specs.Heads.{segment_sign, segment_wants};
    ghost use Rattle.rule.specs.SignsLemmas.{segment_head_sign};

    const NODES: u8 = 1;

    ghost NODES = { 1 };

    ghost want = { segment };

    ghost spelling = { segment_sign };

    ghost left = { segment_wants };

    ghost laws = { segment_head_sign };
}

impl Sign for RuleHead {
    ghost use Rattle.rule.specs.Heads.{rule_sign, rule_wants};
    ghost use Rattle.rule.specs.SignsLemmas.{rule_head_sign};

    const NODES: u8 = 1;

    ghost NODES = { 1 };

    ghost want = { rule };

    ghost spelling = { rule_sign };

    ghost left = { rule_wants };

    ghost laws = { rule_head_sign };
}

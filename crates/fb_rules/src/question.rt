// What is asked of a buffer.

use crate::checks::Checks;
use crate::limits::Limits;
use crate::start::{Ident, Start};
use fb_schema::Schema;
use std::marker::Model;

/// Whether a buffer unfolds by this schema from a root table of this object, how it begins, within which limits, and
/// what is checked.
#[derive(Drop)]
pub struct Question<'s, 'n> {
    pub schema: &'s Schema<'n>,
    pub root: u32,
    pub start: Start,
    pub ident: Ident,
    pub limits: Limits,
    pub checks: Checks,
}

impl<'s, 'n> Model for Question<'s, 'n> {
    ghost use Rattle.fb_rules.specs.Question.{Question, question};

    ghost Value = { Question };

    ghost view = { λ q. question q.schema.now q.root q.start q.ident q.limits q.checks };
}

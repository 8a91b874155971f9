//! What follows an answer.
ghost use Rattle.std.specs.Prelude.{◌≡◌};
ghost use Rattle.afp_mirror_walk.specs.Follows.{Gives, follows};

use crate::walk::checks::{checked_from, checked_to, read_from, read_to, shut_from, shut_to};
use crate::walk::copies::{closed_from, closed_to, opened_from, opened_to, read_piece, written};
use crate::walk::ends::MirrorEnd;
use crate::walk::lists::{found_file, listed, looked, made};
use crate::walk::sets::{set_dir, set_file};
use crate::walk::standing::{Stage, Walk};
use crate::walk::volumes::{opened_source, opened_target};
use afp_base::Code;
use afp_replies::Reply;

/// What was answered.
#[derive(Drop)]
pub struct Heard {
    pub code: Code,
    pub reply: Reply,
}

/// What follows an answer: where the mirror stands then, or how it ends.
#[tactic(auto, unfolding(crate::specs::Follows::follows))]
pub fn told(walk: Walk, heard: &Heard) -> Result<Walk, MirrorEnd>
    ensures { Gives (follows walk heard.now.code heard.now.reply) result }
{
    match walk.stage {
        Stage::OpensSource => opened_source(walk, heard),
        Stage::OpensTarget => opened_target(walk, heard),
        Stage::Looks => looked(walk, heard),
        Stage::Lists => listed(walk, heard),
        Stage::Makes => made(walk, heard),
        Stage::Finds => found_file(walk, heard),
        Stage::OpensFrom(copying) => opened_from(walk, copying, heard),
        Stage::OpensTo(copying) => opened_to(walk, copying, heard),
        Stage::Reads(copying) => read_piece(walk, copying, heard),
        Stage::Writes { copying, last } => written(walk, copying, last, heard),
        Stage::ClosesFrom(copying) => closed_from(walk, copying, heard),
        Stage::ClosesTo(copying) => closed_to(walk, copying, heard),
        Stage::SetsFile { target } => set_file(walk, target, heard),
        Stage::SetsDir { index } => set_dir(walk, index, heard),
        Stage::ChecksFrom(checking) => checked_from(walk, checking, heard),
        Stage::ChecksTo(checking) => checked_to(walk, checking, heard),
        Stage::ReadsFrom(checking) => read_from(walk, checking, heard),
        Stage::ReadsTo { checking, last } => read_to(walk, checking, last, heard),
        Stage::ShutsFrom(checking) => shut_from(walk, checking, heard),
        Stage::ShutsTo(checking) => shut_to(walk, checking, heard),
    }
}

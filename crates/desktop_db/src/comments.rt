//! Comments in a vector, by rising node.
ghost use Rattle.std.specs.Prelude.{◌≡◌, ◌<◌, ◌≤◌, ◌+◌, ◌∷◌, [], true, is_some, IfOk, IfErr, OnOk, OnErr, IsOk, vec_len, vec_capacity};
ghost use Rattle.std.specs.Option.{option_copied};
ghost use Rattle.volume_spec.specs.Desktop.{comment_at, comment_key, without_comment};
ghost use Rattle.volume_spec.specs.Order.{put_in, rises};
ghost use Rattle.desktop_db.specs.lemma.Places.{IsPlaceOf, IsGapFor};

use crate::comment::Comment;
use crate::place::insert_at;
use afp_base::{NodeId, OutOfMemory};

/// Where the comment of a node is, or where it would go.
fn find(comments: &[Comment], node: NodeId) -> Result<usize, usize>
    requires { rises comment_key comments.now ≡ true }
    ensures found { IfOk result (IsPlaceOf comment_key (node.0 ∷ []) comments.now) }
    ensures gap { IfErr result (IsGapFor comment_key (node.0 ∷ []) comments.now) }
{
    comments.binary_search_by(|comment| comment.compare(node))
}

/// The comment of a node.
pub(crate) fn find_comment(comments: &[Comment], node: NodeId) -> Option<&Comment>
    requires { rises comment_key comments.now ≡ true }
    ensures { option_copied result ≡ comment_at node.0 comments.now }
{
    match find(comments, node) {
        Ok(place) => Some(&comments[place]),
        Err(_) => None,
    }
}

/// Puts a comment in place of the one of its node, or where it goes. An error changes nothing.
pub(crate) fn put_comment(comments: &mut Vec<Comment>, comment: Comment) -> Result<(), OutOfMemory>
    requires { rises comment_key comments.old.items ≡ true }
    ensures ok { OnOk result (comments.new.items ≡ put_in comment_key comment (without_comment comment.node comments.old.items)) }
    ensures err { OnErr result (comments.new.items ≡ comments.old.items) }
    ensures room { vec_len comments.old < vec_capacity comments.old → IsOk result }
    ensures len { vec_len comments.new ≤ vec_len comments.old + 1 }
    ensures capacity { vec_capacity comments.old ≤ vec_capacity comments.new }
{
    match find(comments.as_slice(), comment.node()) {
        Ok(place) => {
            let _old = std::mem::replace(&mut comments[place], comment);
            Ok(())
        }
        Err(place) => insert_at(comments, place, comment),
    }
}

/// Takes the comment of a node away. Whether there was one.
pub(crate) fn take_comment(comments: &mut Vec<Comment>, node: NodeId) -> bool
    requires { rises comment_key comments.old.items ≡ true }
    ensures taken { result ≡ is_some (comment_at node.0 comments.old.items) }
    ensures items { comments.new.items ≡ without_comment node.0 comments.old.items }
    ensures len { vec_len comments.new ≤ vec_len comments.old }
    ensures capacity { vec_capacity comments.new ≡ vec_capacity comments.old }
{
    match find(comments.as_slice(), node) {
        Ok(place) => {
            let _comment = comments.remove(place);
            true
        }
        Err(_) => false,
    }
}

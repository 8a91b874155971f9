//! The desktop database of a volume.
ghost use Rattle.std.specs.Prelude.{◌≡◌, ◌≢◌, ◌↔◌, ◌+◌, ◌≤◌, [], true, is_some, length, option_map, slice_get, IsOk, OnOk, OnErr};
ghost use Rattle.std.specs.Option.{option_copied};
ghost use Rattle.volume_spec.specs.Desktop as database;
ghost use Rattle.volume_spec.specs.SoundVolume.{icon_key};
ghost use Rattle.volume_spec.specs.VolumeState.{Appl as Mapping, Comment as NodeComment, Icon as DesktopIcon};
ghost use Rattle.desktop_db.specs.Kept.{shown_icon, shown_appl};

use crate::appl::Appl;
use crate::appls::{find_appl, forget_node, nth_appl, nth_creator, put_appl, take_appl};
use crate::comment::Comment;
use crate::comments::{find_comment, put_comment, take_comment};
use crate::fault::DeskFault;
use crate::icon::Icon;
use crate::icons::{find_icon, nth_icon, put_icon};
use afp_base::{Bytes, NodeId, OutOfMemory};
use std::alloc::Global;
use std::marker::Model;

/// The icons, APPL mappings and comments of a volume, and room for more (AFP Reference, "Desktop database").
///
/// Contracts see the definition's three lists, each by rising key, and `spare`, a number of elements that any one list takes
/// more with no memory.
#[derive(Drop)]
pub struct Desktop {
    comments: Vec<Comment>,
    icons: Vec<Icon>,
    appls: Vec<Appl>,
}

impl Model for Desktop {
    ghost use Rattle.std.specs.Prelude.{◌-◌, min, vec_capacity, vec_len};
    ghost use Rattle.desktop_db.specs.Kept.{DesktopValue};
    ghost use Rattle.desktop_db.specs.lemma.Kept.{AreKept};

    ghost Value = { DesktopValue };

    ghost view = { λ a. record { comments = a.comments.items; icons = a.icons.items; appls = a.appls.items; spare = min (vec_capacity a.comments - vec_len a.comments) (min (vec_capacity a.icons - vec_len a.icons) (vec_capacity a.appls - vec_len a.appls)) } };

    ghost invariant = { λ a. AreKept a.comments.items a.icons.items a.appls.items };
}

impl Desktop {
    /// A desktop database with nothing in it. It takes no memory.
    pub fn new(alloc: Global) -> Desktop
        ensures comments { result.comments ≡ [] }
        ensures icons { result.icons ≡ [] }
        ensures appls { result.appls ≡ [] }
    {
        Desktop {
            comments: Vec::new(alloc),
            icons: Vec::new(alloc),
            appls: Vec::new(alloc),
        }
    }

    /// Says what always holds of the lists, and does nothing.
    pub fn lists_are_kept(&self)
        ensures desktop { database.IsDesktop self.now.comments self.now.icons self.now.appls }
        ensures typed { database.IsTypedDesktop self.now.comments self.now.icons self.now.appls }
    {
        let _icons = self.icons.len();
    }

    /// Makes room, so that one icon, mapping or comment can be put with no memory. An error changes nothing that contracts see.
    pub fn reserve(&mut self) -> Result<(), OutOfMemory>
        ensures room { OnOk result (1 ≤ self.new.spare) }
        ensures comments { self.new.comments ≡ self.old.comments }
        ensures icons { self.new.icons ≡ self.old.icons }
        ensures appls { self.new.appls ≡ self.old.appls }
        ensures spare { self.old.spare ≤ self.new.spare }
    {
        self.comments.reserve(1)?;
        self.icons.reserve(1)?;
        self.appls.reserve(1)?;
        Ok(())
    }

    /// Puts an icon under a key: creator, type, icon type (FPAddIcon). Of its bits the first 65,535 are kept. It is full exactly
    /// at 1,024 icons and a new key. An error changes none of the lists.
    pub fn put_icon(&mut self, key: [u8; 9], tag: u32, bits: Bytes) -> Result<(), DeskFault>
        ensures ok { OnOk result (self.new.icons ≡ database.with_icon (database.icon_under key tag bits) self.old.icons) }
        ensures err { OnErr result (self.new.icons ≡ self.old.icons) }
        ensures full { (result ≡ Err DeskFault.Full) ↔ (database.has_no_icon_room key self.old.icons ≡ true) }
        ensures room { 1 ≤ self.old.spare → result ≢ Err DeskFault.Memory }
        ensures comments { self.new.comments ≡ self.old.comments }
        ensures appls { self.new.appls ≡ self.old.appls }
        ensures spare { self.old.spare ≤ self.new.spare + 1 }
    {
        put_icon(&mut self.icons, Icon::new(key, tag, bits))
    }

    /// The tag and the bits of the icon under a key (FPGetIcon).
    pub fn icon(&self, key: &[u8; 9]) -> Option<(u32, &[u8])>
        ensures { option_map shown_icon result ≡ option_map (λ (icon : DesktopIcon). (icon.tag, icon.bits)) (database.icon_at key.now self.now.icons) }
    {
        match find_icon(self.icons.as_slice(), key) {
            Some(icon) => Some((icon.tag(), icon.bits())),
            None => None,
        }
    }

    /// The key of an icon of a creator, counted from 1 in the order of type and icon type (FPGetIconInfo).
    pub fn nth_icon(&self, creator: &[u8; 4], i: u16) -> Option<[u8; 9]>
        ensures { result ≡ option_map icon_key (database.nth_icon creator.now i self.now.icons) }
    {
        match nth_icon(self.icons.as_slice(), creator, i) {
            Some(icon) => Some(*icon.key()),
            None => None,
        }
    }

    /// How many icons there are.
    pub fn icons(&self) -> usize
        ensures { result ≡ length self.now.icons }
    {
        self.icons.len()
    }

    /// Puts the mapping of a creator and a file (FPAddAPPL). It is full exactly at 4,096 mappings and a new pair. An error changes
    /// none of the lists.
    pub fn put_appl(&mut self, creator: [u8; 4], node: NodeId, tag: u32) -> Result<(), DeskFault>
        ensures ok { OnOk result (self.new.appls ≡ database.with_appl (record { creator = creator; node = node.0; tag = tag }) self.old.appls) }
        ensures err { OnErr result (self.new.appls ≡ self.old.appls) }
        ensures full { (result ≡ Err DeskFault.Full) ↔ (database.has_no_appl_room creator node.0 self.old.appls ≡ true) }
        ensures room { 1 ≤ self.old.spare → result ≢ Err DeskFault.Memory }
        ensures comments { self.new.comments ≡ self.old.comments }
        ensures icons { self.new.icons ≡ self.old.icons }
        ensures spare { self.old.spare ≤ self.new.spare + 1 }
    {
        put_appl(&mut self.appls, Appl::new(creator, node, tag))
    }

    /// Takes the mapping of a creator and a file away (FPRemoveAPPL). Whether there was one.
    pub fn take_appl(&mut self, creator: &[u8; 4], node: NodeId) -> bool
        ensures taken { result ≡ is_some (database.appl_at creator.now node.0 self.old.appls) }
        ensures appls { self.new.appls ≡ database.without_appl creator.now node.0 self.old.appls }
        ensures comments { self.new.comments ≡ self.old.comments }
        ensures icons { self.new.icons ≡ self.old.icons }
        ensures spare { self.old.spare ≤ self.new.spare }
    {
        take_appl(&mut self.appls, creator, node)
    }

    /// The tag of the mapping of a creator and a file.
    pub fn appl(&self, creator: &[u8; 4], node: NodeId) -> Option<u32>
        ensures { result ≡ option_map (λ (appl : Mapping). appl.tag) (database.appl_at creator.now node.0 self.now.appls) }
    {
        match find_appl(self.appls.as_slice(), creator, node) {
            Some(appl) => Some(appl.tag()),
            None => None,
        }
    }

    /// A mapping of a creator, counted from 1 in the order of files: the file and the tag (FPGetAPPL).
    pub fn nth_appl(&self, creator: &[u8; 4], i: u16) -> Option<(NodeId, u32)>
        ensures { option_map shown_appl result ≡ option_map (λ (appl : Mapping). (appl.node, appl.tag)) (database.nth_appl creator.now i self.now.appls) }
    {
        match nth_appl(self.appls.as_slice(), creator, i) {
            Some(appl) => Some((appl.node(), appl.tag())),
            None => None,
        }
    }

    /// A creator that has a mapping to a file, counted from 0 in rising order.
    pub fn nth_creator(&self, node: NodeId, i: usize) -> Option<[u8; 4]>
        ensures { result ≡ slice_get (database.creators_of node.0 self.now.appls) i }
    {
        nth_creator(self.appls.as_slice(), node, i)
    }

    /// How many mappings there are.
    pub fn appls(&self) -> usize
        ensures { result ≡ length self.now.appls }
    {
        self.appls.len()
    }

    /// Puts the comment of a node (FPAddComment): of its text the first 199 bytes are kept, and an empty text takes the comment away.
    /// An error changes none of the lists.
    pub fn put_comment(&mut self, node: NodeId, text: Bytes) -> Result<(), OutOfMemory>
        ensures ok { OnOk result (self.new.comments ≡ database.with_comment node.0 text self.old.comments) }
        ensures err { OnErr result (self.new.comments ≡ self.old.comments) }
        ensures room { 1 ≤ self.old.spare → IsOk result }
        ensures empty { length text ≡ 0 → IsOk result }
        ensures icons { self.new.icons ≡ self.old.icons }
        ensures appls { self.new.appls ≡ self.old.appls }
        ensures spare { self.old.spare ≤ self.new.spare + 1 }
    {
        if text.as_slice().is_empty() {
            let _ = take_comment(&mut self.comments, node);
            return Ok(());
        }
        put_comment(&mut self.comments, Comment::new(node, text))
    }

    /// The comment of a node (FPGetComment).
    pub fn comment(&self, node: NodeId) -> Option<&[u8]>
        ensures { option_copied result ≡ option_map (λ (comment : NodeComment). comment.text) (database.comment_at node.0 self.now.comments) }
    {
        match find_comment(self.comments.as_slice(), node) {
            Some(comment) => Some(comment.text()),
            None => None,
        }
    }

    /// Takes the comment of a node away (FPRemoveComment). Whether there was one.
    pub fn take_comment(&mut self, node: NodeId) -> bool
        ensures taken { result ≡ is_some (database.comment_at node.0 self.old.comments) }
        ensures comments { self.new.comments ≡ database.without_comment node.0 self.old.comments }
        ensures icons { self.new.icons ≡ self.old.icons }
        ensures appls { self.new.appls ≡ self.old.appls }
        ensures spare { self.old.spare ≤ self.new.spare }
    {
        take_comment(&mut self.comments, node)
    }

    /// Takes away what goes with a node: its comment and all mappings to it (FPDelete).
    pub fn forget(&mut self, node: NodeId)
        ensures comments { self.new.comments ≡ database.without_comment node.0 self.old.comments }
        ensures appls { self.new.appls ≡ database.without_mappings node.0 self.old.appls }
        ensures icons { self.new.icons ≡ self.old.icons }
        ensures spare { self.old.spare ≤ self.new.spare }
    {
        let _had_comment = take_comment(&mut self.comments, node);
        forget_node(&mut self.appls, node);
    }

    /// All comments, by rising node.
    pub fn comments(&self) -> &[Comment]
        ensures { result.now ≡ self.now.comments }
    {
        self.comments.as_slice()
    }

    /// All mappings, by rising creator and file.
    pub fn all_appls(&self) -> &[Appl]
        ensures { result.now ≡ self.now.appls }
    {
        self.appls.as_slice()
    }
}

//! Laws of edits. Each function says some, and does nothing.
ghost use Rattle.volume_spec.specs.EditLaws as laws;
ghost use Rattle.volume_spec.specs.EditRanges as ranges;
ghost use Rattle.volume_spec.specs.WorkedCalls as worked;

/// An edit that may be made keeps a volume sound; so does a call whose edits may be made.
pub fn edits_keep_volumes_sound()
    ensures edit { laws.EditKeepsSound }
    ensures call { laws.CallKeepsSound }
{}

/// What a call of the tree does is its edits, and it is refused where these are. What other bytes of a fork do is one edit.
pub fn effects_are_edits()
    ensures tree { laws.EffectsAreEdits }
    ensures refusals { laws.RefusalsAreThose }
    ensures forks { laws.ForkEffectsAreEdits }
{}

/// Where a call is not refused, its edits may be made.
pub fn calls_may_edit()
    ensures { laws.CallsMayEdit }
{}

/// An id that was drawn is never drawn again: over a call the next id does not fall, and no node gets an id below it.
pub fn edits_draw_ids_once()
    ensures next { laws.NextIdDoesNotFall }
    ensures old { laws.EditsDrawOnce }
{}

/// An edit that may be made keeps the numbers of a volume in their ranges, if it brings such; so does a call, and the edits of a call that is not
/// refused bring such where the call does.
pub fn edits_keep_numbers_in_ranges()
    ensures edit { ranges.EditKeepsTyped }
    ensures call { ranges.CallKeepsTyped }
    ensures calls { ranges.CallsBringTyped }
{}

/// An edit lets the volume's name be. The edits of a call that is not refused let each file be of which a fork is open.
pub fn edits_let_open_files_be()
    ensures name { laws.EditKeepsName }
    ensures call_name { laws.CallKeepsName }
    ensures edit { laws.EditLetsFilesBe }
    ensures call { laws.CallLetsFilesBe }
    ensures calls { laws.CallsLetFilesBe }
{}

/// Files and directories at a small volume, made, copied, exchanged, filed and taken away, in values that were worked by hand.
pub fn worked_calls_hold()
    ensures created { worked.FileIsCreated }
    ensures deleted { worked.FileIsDeleted }
    ensures drawn { worked.NextIdIsDrawn }
    ensures renamed { worked.FileIsRenamed }
    ensures moved { worked.FileIsMoved }
    ensures no_deletes { worked.DeletesAreRefused }
    ensures filed { worked.FileIsFiled }
    ensures no_ids { worked.IdsAreCreated }
    ensures id_deleted { worked.IdIsDeleted }
    ensures no_id_deletes { worked.IdsAreDeleted }
    ensures resolved { worked.IdsAreResolved }
    ensures exchanged { worked.FilesAreExchanged }
    ensures no_exchanges { worked.ExchangesAreRefused }
    ensures copied { worked.FileIsCopied }
    ensures copy_named { worked.CopyKeepsItsName }
    ensures no_copies { worked.CopiesAreRefused }
{}

/// The desktop database of the same volume, in values that were worked by hand.
pub fn worked_desktops_hold()
    ensures icon { worked.IconIsPut }
    ensures icon_replaced { worked.IconIsReplaced }
    ensures icon_room { worked.IconsHaveRoom }
    ensures icons { worked.IconsAreGiven }
    ensures first_icon { worked.FirstIconIsTold }
    ensures no_icons { worked.IconsAreRefused }
    ensures mapping { worked.MappingIsPut }
    ensures mapping_replaced { worked.MappingIsReplaced }
    ensures mapping_taken { worked.MappingIsTaken }
    ensures no_mappings { worked.MappingsAreRefused }
    ensures mapping_room { worked.MappingsHaveRoom }
    ensures mappings { worked.MappingsAreTold }
    ensures comment { worked.CommentIsPut }
    ensures comment_cut { worked.CommentIsCut }
    ensures comment_replaced { worked.CommentIsReplaced }
    ensures empty_comment { worked.EmptyCommentTakes }
    ensures comment_taken { worked.CommentIsTaken }
    ensures no_edit { worked.EmptyCommentIsNone }
    ensures no_comments { worked.CommentsAreRefused }
{}

//! Worked examples of the definitions, and laws that a reader may test them by.
ghost use Rattle.std.specs.Prelude.{◌≡◌, ℕ, List, [], ◌∷◌, ◌++◌, Option, Some, None, codes};
ghost use Rattle.std.specs.FinMap as map;
ghost use Rattle.cell_world.specs.Texts.{Text};
ghost use Rattle.cell_world.specs.KeyForms.{normal_of, guid_form};
ghost use Rattle.cell_world.specs.Plain.{PlainState, Held};
ghost use Rattle.cell_world.specs.Stores.{Store};
ghost use Rattle.cell_world.specs.declared.cells.KeyType.{KeyType};
ghost use Rattle.cell_world.specs.declared.cells.KeyType.TheVariants as type;
ghost use Rattle.cell_world.specs.declared.cells.MapKind.{MapKind};
ghost use Rattle.cell_world.specs.declared.cells.MapKind.TheVariants as kind;
ghost use Rattle.cell_world.specs.declared.cells.Status.TheVariants as status;
ghost use Rattle.cell_world.specs.declared.spans.Span.TheVariants as span;
ghost use Rattle.plain_model.specs.declared.commands.Command.TheVariants as command;
ghost use Rattle.plain_model.specs.declared.commands.HighText.TheVariants as word;
ghost use Rattle.plain_model.specs.declared.replies.Label.TheVariants as label;
ghost use Rattle.plain_model.specs.declared.replies.Refusal.TheVariants as refused;
ghost use Rattle.plain_model.specs.declared.replies.Reply.TheVariants as reply;
ghost use Rattle.plain_model.specs.Differing.{differences_of, kept_rows, clean};
ghost use Rattle.cell_world.specs.KeyPrinting.{key_text, guid_unformed};
ghost use Rattle.plain_model.specs.Lines.{reply_lines};
ghost use Rattle.plain_model.specs.Refusing.{refusal};
ghost use Rattle.plain_model.specs.Steps.{plain_step, rest_of};
ghost use Rattle.plain_model.specs.Worked.{small_key, small_range, range_from, mapping_over, mapping_with, local_row_over, difference_over};

/// A map that was just made can't be made again.
pub fn map_twice()
    ensures { (held_then : Held) (s : PlainState) (i : ℕ) (name : Text) (kind other : MapKind) (type type' : KeyType) →
        (plain_step held_then s i (command.Map name kind type)).1 ≡ reply.Ok →
        (plain_step held_then (plain_step held_then s i (command.Map name kind type)).0 i (command.Map name other type')).1 ≡ reply.Refused refused.MapExists }
{}

/// A range whose ends are one key is refused.
pub fn empty_range_is_bad()
    ensures { (s : PlainState) (i : ℕ) (name location : Text) → map.get s.maps name ≡ Some (kind.Range, type.Int) →
        refusal s i (command.Add name (codes "5") (word.At (codes "5")) location) ≡ Some refused.BadRange }
{}

/// Texts and the normal forms that they stand for.
pub fn worked_forms()
    ensures int_5 { normal_of type.Int (codes "5") ≡ Some (128 ∷ 0 ∷ 0 ∷ 5 ∷ []) }
    ensures int_100 { normal_of type.Int (codes "100") ≡ Some (128 ∷ 0 ∷ 0 ∷ 100 ∷ []) }
    ensures int_minus_1 { normal_of type.Int (codes "-1") ≡ Some (127 ∷ 255 ∷ 255 ∷ 255 ∷ []) }
    ensures int_least { normal_of type.Int (codes "-2147483648") ≡ Some (0 ∷ 0 ∷ 0 ∷ 0 ∷ []) }
    ensures int_too_great { normal_of type.Int (codes "2147483648") ≡ None }
    ensures int_leading_zero { normal_of type.Int (codes "01") ≡ None }
    ensures int_minus_0 { normal_of type.Int (codes "-0") ≡ None }
    ensures int_letter { normal_of type.Int (codes "x") ≡ None }
    ensures long_5 { normal_of type.Long (codes "5") ≡ Some (128 ∷ 0 ∷ 0 ∷ 0 ∷ 0 ∷ 0 ∷ 0 ∷ 5 ∷ []) }
    ensures datetime_last { normal_of type.Datetime (codes "3155378975999999999") ≡ Some (43 ∷ 202 ∷ 40 ∷ 117 ∷ 244 ∷ 55 ∷ 63 ∷ 255 ∷ []) }
    ensures datetime_too_great { normal_of type.Datetime (codes "3155378976000000000") ≡ None }
    ensures datetime_minus_1 { normal_of type.Datetime (codes "-1") ≡ None }
    ensures guid_1 { normal_of type.Guid (codes "10000000-0000-0000-0000-000000000001") ≡ Some (0 ∷ 0 ∷ 0 ∷ 0 ∷ 0 ∷ 1 ∷ 0 ∷ 0 ∷ 0 ∷ 0 ∷ 0 ∷ 0 ∷ 0 ∷ 0 ∷ 0 ∷ 16 ∷ []) }
    ensures bytes_0100 { normal_of type.Bytes (codes "0x0100") ≡ Some (1 ∷ []) }
    ensures bytes_none { normal_of type.Bytes (codes "0x") ≡ Some [] }
    ensures bytes_half { normal_of type.Bytes (codes "0x0") ≡ None }
{}

/// Normal forms and their printed texts.
pub fn worked_texts()
    ensures int_5 { key_text type.Int (128 ∷ 0 ∷ 0 ∷ 5 ∷ []) ≡ codes "5" }
    ensures int_minus_1 { key_text type.Int (127 ∷ 255 ∷ 255 ∷ 255 ∷ []) ≡ codes "-1" }
    ensures int_least { key_text type.Int (0 ∷ 0 ∷ 0 ∷ 0 ∷ []) ≡ codes "-2147483648" }
    ensures long_0 { key_text type.Long (128 ∷ 0 ∷ 0 ∷ 0 ∷ 0 ∷ 0 ∷ 0 ∷ 0 ∷ []) ≡ codes "0" }
    ensures timespan_minus_5 { key_text type.Timespan (127 ∷ 255 ∷ 255 ∷ 255 ∷ 255 ∷ 255 ∷ 255 ∷ 251 ∷ []) ≡ codes "-5" }
    ensures datetime_last { key_text type.Datetime (43 ∷ 202 ∷ 40 ∷ 117 ∷ 244 ∷ 55 ∷ 63 ∷ 255 ∷ []) ≡ codes "3155378975999999999" }
    ensures guid_1 { key_text type.Guid (0 ∷ 0 ∷ 0 ∷ 0 ∷ 0 ∷ 1 ∷ 0 ∷ 0 ∷ 0 ∷ 0 ∷ 0 ∷ 0 ∷ 0 ∷ 0 ∷ 0 ∷ 16 ∷ []) ≡ codes "10000000-0000-0000-0000-000000000001" }
    ensures guid_order { key_text type.Guid (0 ∷ 1 ∷ 2 ∷ 3 ∷ 4 ∷ 5 ∷ 6 ∷ 7 ∷ 8 ∷ 9 ∷ 10 ∷ 11 ∷ 12 ∷ 13 ∷ 14 ∷ 15 ∷ []) ≡ codes "0f0e0d0c-0b0a-0908-0607-000102030405" }
    ensures bytes_1 { key_text type.Bytes (1 ∷ 171 ∷ []) ≡ codes "0x01ab" }
    ensures bytes_none { key_text type.Bytes [] ≡ codes "0x" }
{}

/// The bytes of a guid in the order of its text are those of its normal form, put in another order, and back.
pub fn guid_forms_back()
    ensures form { (a b c d e f g h i j k l m n o p : ℕ) →
        guid_form (guid_unformed (a ∷ b ∷ c ∷ d ∷ e ∷ f ∷ g ∷ h ∷ i ∷ j ∷ k ∷ l ∷ m ∷ n ∷ o ∷ p ∷ [])) ≡ a ∷ b ∷ c ∷ d ∷ e ∷ f ∷ g ∷ h ∷ i ∷ j ∷ k ∷ l ∷ m ∷ n ∷ o ∷ p ∷ [] }
    ensures text { (a b c d e f g h i j k l m n o p : ℕ) →
        guid_unformed (guid_form (a ∷ b ∷ c ∷ d ∷ e ∷ f ∷ g ∷ h ∷ i ∷ j ∷ k ∷ l ∷ m ∷ n ∷ o ∷ p ∷ [])) ≡ a ∷ b ∷ c ∷ d ∷ e ∷ f ∷ g ∷ h ∷ i ∷ j ∷ k ∷ l ∷ m ∷ n ∷ o ∷ p ∷ [] }
{}

/// Differences: of a shard that lacks one mapping, has another with another status and one row too many; of one side alone;
/// of a mapping without an end that the shard has only in part; and of points.
pub fn worked_differences()
    ensures restored { differences_of kind.Range
        (mapping_over (small_range 0 10) status.Online ∷ mapping_over (small_range 10 20) status.Offline ∷ [])
        (local_row_over (small_range 10 20) status.Online ∷ local_row_over (small_range 30 40) status.Online ∷ [])
        ≡ difference_over (small_range 0 10) label.GlobalOnly (Some status.Online) None
        ∷ difference_over (small_range 10 20) label.Both (Some status.Offline) (Some status.Online)
        ∷ difference_over (small_range 30 40) label.ShardOnly None (Some status.Online) ∷ [] }
    ensures global_only { differences_of kind.Range (mapping_over (small_range 0 10) status.Offline ∷ []) []
        ≡ difference_over (small_range 0 10) label.GlobalOnly (Some status.Offline) None ∷ [] }
    ensures shard_only { differences_of kind.Range [] (local_row_over (small_range 0 10) status.Online ∷ [])
        ≡ difference_over (small_range 0 10) label.ShardOnly None (Some status.Online) ∷ [] }
    ensures agreed { differences_of kind.Range (mapping_over (small_range 0 10) status.Online ∷ []) (local_row_over (small_range 0 4) status.Online ∷ local_row_over (small_range 4 10) status.Online ∷ []) ≡ [] }
    ensures unbounded { differences_of kind.Range (mapping_over (range_from 0) status.Online ∷ []) (local_row_over (small_range 0 10) status.Online ∷ local_row_over (small_range 10 20) status.Offline ∷ [])
        ≡ difference_over (small_range 10 20) label.Both (Some status.Online) (Some status.Offline)
        ∷ difference_over (range_from 20) label.GlobalOnly (Some status.Online) None ∷ [] }
    ensures points { differences_of kind.List
        (mapping_over (span.Point (small_key 7)) status.Online ∷ mapping_over (span.Point (small_key 5)) status.Online ∷ [])
        (local_row_over (span.Point (small_key 5)) status.Offline ∷ [])
        ≡ difference_over (span.Point (small_key 5)) label.Both (Some status.Online) (Some status.Offline)
        ∷ difference_over (span.Point (small_key 7)) label.GlobalOnly (Some status.Online) None ∷ [] }
{}

/// Of local rows in order those that overlap an earlier kept one are dropped; one that was dropped drops no other.
pub fn worked_kept_rows()
    ensures { kept_rows []
        (local_row_over (small_range 0 10) status.Online ∷ local_row_over (small_range 5 15) status.Online ∷ local_row_over (small_range 10 20) status.Offline ∷ [])
        ≡ local_row_over (small_range 0 10) status.Online ∷ local_row_over (small_range 10 20) status.Offline ∷ [] }
{}

/// `attach` changes local rows alone: all other cells of the site stay.
pub fn clean_keeps_other_cells()
    ensures { (s : PlainState) (location : Text) (store : Store) → clean s location store ≡ record store { locals = (clean s location store).locals } }
{}

/// What of a span lies outside a part: on both sides, below, above without an end, and nothing.
pub fn worked_rests()
    ensures both { rest_of (small_range 0 30) (small_range 10 20) ≡ small_range 0 10 ∷ small_range 20 30 ∷ [] }
    ensures below { rest_of (range_from 0) (range_from 10) ≡ small_range 0 10 ∷ [] }
    ensures above { rest_of (range_from 0) (small_range 0 10) ≡ range_from 10 ∷ [] }
    ensures whole { rest_of (small_range 0 30) (small_range 0 30) ≡ [] }
    ensures point { rest_of (span.Point (small_key 7)) (span.Point (small_key 7)) ≡ [] }
{}

/// Replies and their lines; a session's number stands before each line where lines are tagged.
pub fn worked_lines()
    ensures done { reply_lines None reply.Ok ≡ codes "ok" ++ 10 ∷ [] }
    ensures tagged { reply_lines (Some 16) reply.Ok ≡ codes "16 ok" ++ 10 ∷ [] }
    ensures mapping { reply_lines None (reply.Mapping type.Int (mapping_over (small_range 0 10) status.Online)) ≡ codes "0 10 s/a online" ++ 10 ∷ [] }
    ensures locked { reply_lines None (reply.Mapping type.Int (mapping_with (small_range 0 10) status.Offline (record { 0 = 148323679367508813469570288368088605951 }))) ≡ codes "0 10 s/a offline 6f9619ff-8b86-d011-b42d-00cf4fc964ff" ++ 10 ∷ [] }
    ensures job_token { reply_lines None (reply.Mapping type.Int (mapping_with (small_range 0 7) status.Offline (record { 0 = 1 }))) ≡ codes "0 7 s/a offline 00000000-0000-0000-0000-000000000001" ++ 10 ∷ [] }
    ensures unbounded { reply_lines None (reply.Mapping type.Int (mapping_over (range_from 5) status.Online)) ≡ codes "5 max s/a online" ++ 10 ∷ [] }
    ensures point { reply_lines None (reply.Mapping type.Bytes (mapping_over (span.Point (1 ∷ [])) status.Online)) ≡ codes "0x01 s/a online" ++ 10 ∷ [] }
    ensures mappings { reply_lines (Some 2) (reply.Mappings type.Int (mapping_over (small_range 0 4) status.Online ∷ mapping_over (small_range 4 10) status.Offline ∷ []))
        ≡ codes "2 mappings 2" ++ 10 ∷ codes "2 0 4 s/a online" ++ 10 ∷ codes "2 4 10 s/a offline" ++ 10 ∷ [] }
    ensures shards { reply_lines None (reply.Shards (codes "s/a" ∷ codes "s/b" ∷ [])) ≡ codes "shards 2" ++ 10 ∷ codes "s/a" ++ 10 ∷ codes "s/b" ++ 10 ∷ [] }
    ensures at { reply_lines None (reply.At (codes "s/a")) ≡ codes "at s/a" ++ 10 ∷ [] }
    ensures row { reply_lines None (reply.Row (255 ∷ 1 ∷ [])) ≡ codes "row 0xff01" ++ 10 ∷ [] }
    ensures known { reply_lines None (reply.Known type.Int (small_range 0 10) (codes "s/a") 4) ≡ codes "known 0 10 s/a 4" ++ 10 ∷ [] }
    ensures known_point { reply_lines None (reply.Known type.Bytes (span.Point (1 ∷ [])) (codes "s/a") 4) ≡ codes "known 0x01 s/a 4" ++ 10 ∷ [] }
    ensures differences { reply_lines None (reply.Differences type.Int (
        difference_over (small_range 0 10) label.GlobalOnly (Some status.Online) None
        ∷ difference_over (small_range 10 20) label.Both (Some status.Offline) (Some status.Online)
        ∷ difference_over (small_range 30 40) label.ShardOnly None (Some status.Online) ∷ []))
        ≡ codes "differences 3" ++ 10 ∷ codes "0 10 global-only online -" ++ 10 ∷ codes "10 20 both offline online" ++ 10 ∷ codes "30 40 shard-only - online" ++ 10 ∷ [] }
    ensures discarded { reply_lines None (reply.Discarded 256) ≡ codes "discarded 256" ++ 10 ∷ [] }
    ensures cursor { reply_lines None (reply.Cursor type.Int (small_key 5)) ≡ codes "cursor 5" ++ 10 ∷ [] }
    ensures left { reply_lines None (reply.Refused (refused.DifferencesLeft 3)) ≡ codes "differences-left 3" ++ 10 ∷ [] }
    ensures pending { reply_lines (Some 2) (reply.Pending 1) ≡ codes "2 pending 1" ++ 10 ∷ [] }
{}

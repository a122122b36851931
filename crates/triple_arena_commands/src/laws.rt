//! What holds of lines, commands and stores of names. Each law is the contract of a function with an
//! empty body.

ghost use Rattle.std.specs.Prelude.{◌≡◌, ◌↔◌, ℕ, ◌+◌, Bool, List, Option, Some, None, IsTrue, true, false};
ghost use Rattle.std.specs.List.{list_all, list_any};
ghost use Rattle.triple_arena_commands.specs.declared.command.Command.{Command};
ghost use Rattle.triple_arena_commands.specs.declared.command.Command.TheVariants.{InsertWithin, Get, Compact};
ghost use Rattle.triple_arena_commands.specs.declared.reply.Reply.{Reply};
ghost use Rattle.triple_arena_commands.specs.declared.reply.Reply.TheVariants.{Given, Full, Found, Nothing, Unresolved, Exhausted};
ghost use Rattle.triple_arena_commands.specs.ReplyText.{tells_of_wrap};
ghost use Rattle.triple_arena_commands.specs.Runs.{IsRun};
ghost use Rattle.triple_arena_commands.specs.NameStore.{Store, next_name, row_count, row, is_good_link, HasEnded, row_dangles, IsStoreStep, MayReply};
ghost use Rattle.triple_arena_commands.specs.StoreRuns.{is_named, is_no_memory, AnswersAsStore, replies_with_memory, without_compactions, replies_without_compactions};
ghost use Rattle.triple_arena_commands.specs.StrictStore.{StrictStore, tells_exhausted, used, is_spent, IsStrictStoreStep};
ghost use Rattle.triple_arena_commands.specs.Forms.{FormsAreExact, LinesAreExact};

/// A line stands for just the command whose form it has, so for one at most.
pub fn forms_are_exact()
    ensures { FormsAreExact }
{}

/// A text is its lines with a byte 0A between, and no line has this byte.
pub fn lines_are_exact()
    ensures { LinesAreExact }
{}

/// A name that a store of names gives is the next one, and the one after it is next then. A name that
/// has ended has ended for good.
pub fn names_are_new<X>()
    ensures next { (s t : Store X) (command : Command X) (name : ℕ) (wrapped : Bool)
        → IsStoreStep s command (Given name wrapped) t
        → (name ≡ next_name s) × (next_name t ≡ next_name s + 1) }
    ensures ended { (s t : Store X) (command : Command X) (reply : Reply X) (name : ℕ)
        → IsStoreStep s command reply t → HasEnded s name → HasEnded t name }
{}

/// An insertion within capacity is refused exactly when the store is full; a look-up finds exactly
/// what the name's row has; and a compaction is unresolved exactly where a row's link names no row.
/// The replies to each command are exactly those that may come, and no other.
pub fn store_is_exact<X>()
    ensures full { (s t : Store X) (datum : X) (link : Option ℕ) → IsTrue (is_good_link s link)
        → IsStoreStep s (InsertWithin datum link) Full t ↔ ((row_count s ≡ s.capacity) × (t ≡ s)) }
    ensures found { (s t : Store X) (name : ℕ) (datum : X) (link : Option ℕ)
        → IsStoreStep s (Get name) (Found datum link) t
        ↔ ((row s name ≡ Some (datum, link)) × (t ≡ s)) }
    ensures nothing { (s t : Store X) (name : ℕ)
        → IsStoreStep s (Get name) Nothing t ↔ ((row s name ≡ None) × (t ≡ s)) }
    ensures unresolved { (s t : Store X)
        → IsStoreStep s Compact Unresolved t
        ↔ (IsTrue (list_any (row_dangles s) s.rows) × (t ≡ s)) }
    ensures replies { (s : Store X) (command : Command X) (reply : Reply X)
        → ((t : Store X) × IsStoreStep s command reply t) ↔ MayReply s command reply }
{}

/// Compaction is unseen by whoever asks a store of names: where named commands were answered as by
/// the store, and none with `NoMemory`, the replies to all but the compactions are those that the
/// store gives to the commands without their compactions, where no memory is refused.
pub fn compaction_is_unseen<X>()
    ensures { (s : Store X) (commands : List (Command X)) (replies : List (Reply X))
        → AnswersAsStore s commands replies → list_all is_named commands ≡ true
        → list_any is_no_memory replies ≡ false
        → replies_without_compactions commands replies ≡ replies_with_memory s (without_compactions commands) }
{}

/// A strict store of names answers as the store that it has, and tells of no wrap, but that a command
/// is refused exactly where it needs a raise and none is left, and then nothing changes. Of the raises
/// that are left, a command that needs one and succeeds uses one, and no other does (`counted`).
pub fn strict_store_is_exact<X>()
    ensures exhausted { (s t : StrictStore X) (command : Command X)
        → IsStrictStoreStep s command Exhausted t ↔ ((is_spent s command ≡ true) × (t ≡ s)) }
    ensures stores { (s t : StrictStore X) (command : Command X) (reply : Reply X)
        → IsStrictStoreStep s command reply t → tells_exhausted reply ≡ false
        → IsStoreStep s.store command reply t.store }
    ensures counted { (s t : StrictStore X) (command : Command X) (reply : Reply X)
        → IsStrictStoreStep s command reply t → tells_exhausted reply ≡ false
        → t.left + used s.store command reply ≡ s.left }
    ensures quiet { (s t : StrictStore X) (command : Command X) (reply : Reply X)
        → IsStrictStoreStep s command reply t → tells_of_wrap reply ≡ false }
{}

/// Compaction is unseen by whoever asks a strict store of names, as long as it neither refuses for
/// want of a raise nor of memory.
pub fn strict_compaction_is_unseen<X>()
    ensures { (s t : StrictStore X) (commands : List (Command X)) (replies : List (Reply X))
        → IsRun IsStrictStoreStep s commands replies t → list_all is_named commands ≡ true
        → list_any is_no_memory replies ≡ false → list_any tells_exhausted replies ≡ false
        → replies_without_compactions commands replies ≡ replies_with_memory s.store (without_compactions commands) }
{}

//! What the sequences of a block allow, as what the minutes allow that they walk through.

ghost use Rattle.std.specs.Prelude.{ℕ, Bool, ◌+◌, ◌/◌, ◌%◌, ◌^◌, ◌≡◌, ◌<◌, ◌≤◌, ◌↔◌, bit_or, length, slice_index};
ghost use Rattle.signal_base.specs.declared.station.Station.{Station};
ghost use Rattle.signal_base.specs.declared.window.Window.{Window};
ghost use Rattle.definitions.specs.declared.block.Block.{Block};
ghost use Rattle.definitions.specs.declared.sequence.Sequence.{Sequence};
ghost use Rattle.definitions.specs.sequences.Walks.{IsWalkable, place_at};
ghost use Rattle.definitions.specs.answers.Blocks.{IsBlock, IsIn, IsUnion};
ghost use Rattle.definitions.specs.time.Calendar.{minute_length, minutes_per_day};
ghost use Rattle.minute_parts.specs.Parts.{IsPartTable, PartTable, part_where};
ghost use Rattle.minute_parts.specs.Runs.{end_of_run, first_of, run_at};
ghost use Rattle.minute_parts.specs.declared.hour_layers.TheConstants.{HOUR_MINUTES};
ghost use Rattle.minute_parts.specs.declared.part.TheConstants.{SECONDS};
ghost use Rattle.minute_parts.specs.Times.{time_at};
ghost use Rattle.minute_parts.specs.Unions.{IsUnionOf, IsUnionOver};
ghost use Rattle.minute_parts.specs.Walks.{HasRegularWalks};

/// Where no walk of a block meets a minute of 61 seconds, or one that can't be encoded, each of its sequences is walkable
/// and walks by sixties, and the union in a slot is that of one second over the minutes that the walks are in there.
pub fn block_unions_are_unions_over_minutes()
    ensures walkable { (window : Window) (b : Block) (q : Sequence) → IsBlock window b → HasRegularWalks window b → IsIn b q → IsWalkable window q }
    ensures places { (window : Window) (b : Block) (q : Sequence) (k : ℕ) → HasRegularWalks window b → IsIn b q → k < window.seconds
        → place_at q k ≡ (q.first + (b.second + k) / 60, (b.second + k) % 60) }
    ensures unions { (window : Window) (b : Block) (station : Station) (k set : ℕ) → IsBlock window b → HasRegularWalks window b → k < window.seconds
        → IsUnion window b station k set
        ↔ IsUnionOver station b.announced (b.lo + (b.second + k) / 60) (b.hi + (b.second + k) / 60) ((b.second + k) % 60) set }
{}

/// In 60 minutes on end of a run a second may carry what the time of day tells of it in one of them, and what the date tells.
/// They begin `m` minutes after the minute `lo`, in which minute `u` of the local day is encoded.
pub fn hours_tell_time_and_date()
    ensures { (p : PartTable) (announced : Bool) (i lo m u s time : ℕ) → IsPartTable p → i < length p.runs → first_of p.runs i ≤ lo + m
        → lo + m + HOUR_MINUTES ≤ end_of_run p.runs p.end i → ((t : ℕ) → lo + m ≤ t → t < lo + m + HOUR_MINUTES → minute_length announced t ≡ 60)
        → s < SECONDS → u ≡ (lo + (run_at p.runs i).shift) % minutes_per_day → IsUnionOf (time_at p.times s) (u + m) (u + m + HOUR_MINUTES) time
        → bit_or time (slice_index (part_where announced (run_at p.runs i)) s) < 2 ^ 8
        → IsUnionOver p.station announced (lo + m) (lo + m + HOUR_MINUTES) s (bit_or time (slice_index (part_where announced (run_at p.runs i)) s)) }
{}

//! Native state: the cell of a family, and the families of a surface.
#![tactic(auto)]

ghost use Rattle.std.specs.Prelude.{◌≡◌, ◌<◌, ◌-◌, ◌^◌, pos, ◌+ℤ◌};
ghost use Rattle.native_state.specs.State as state;
ghost use Rattle.native_state.specs.State.{applied, clamped};

mod made;
mod table;
#[cfg(test)]
mod tests;

pub use made::Made;
use shadow_frame::Point;
pub use table::FamilyTable;

/// The native state of a family: how often it changed, and a point.
#[derive(Clone, Copy, Debug, PartialEq, Eq)]
pub struct StateCell {
    pub count: u64,
    /// Each coordinate is from -1,000,000 to 1,000,000.
    pub point: Point,
}

impl StateCell {
    /// The cell that a family begins with: never changed, at (0, 0).
    pub fn start() -> StateCell
        ensures { result ≡ record { count = 0; point = record { x = pos 0; y = pos 0 } } }
    {
        StateCell {
            count: 0,
            point: Point { x: 0, y: 0 },
        }
    }
}

/// A change of a family's native state.
#[derive(Clone, Copy, Debug, PartialEq, Eq)]
pub enum StateChange {
    /// Puts the point there.
    Set { point: Point },
    /// Moves the point by that much.
    Add { by: Point },
    /// Puts the point there where the cell changed that often.
    SetIf { count: u64, point: Point },
}

/// A `SetIf` named another count than the cell's.
#[derive(Clone, Copy, Debug, PartialEq, Eq)]
pub struct Stale {
    /// How often the cell changed.
    pub count: u64,
}

/// What stands for a tag through all revisions: its kind, and its native state.
#[derive(Clone, Copy, Debug, PartialEq, Eq)]
pub struct Family {
    /// The number of the kind.
    pub kind: u8,
    pub cell: StateCell,
}

/// The cell after one more change.
///
/// `Stale` comes exactly for a `SetIf` whose count is not the cell's.
pub fn apply(cell: StateCell, change: StateChange) -> Result<StateCell, Stale>
    requires { cell.count < 2 ^ 64 - 1 }
    ensures { result ≡ applied change cell }
{
    match change {
        StateChange::SetIf { count, .. } if count != cell.count => Err(Stale { count: cell.count }),
        _ => Ok(StateCell {
            count: cell.count + 1,
            point: point_after(change, cell.point),
        }),
    }
}

/// The point that a change leads to.
fn point_after(change: StateChange, before: Point) -> Point
    ensures { result ≡ state.point_after change before }
{
    match change {
        StateChange::Set { point } | StateChange::SetIf { point, .. } => Point {
            x: within(point.x),
            y: within(point.y),
        },
        StateChange::Add { by } => Point {
            x: moved(before.x, by.x),
            y: moved(before.y, by.y),
        },
    }
}

/// A coordinate within -1,000,000 to 1,000,000.
fn within(x: i64) -> i64
    ensures { result ≡ clamped x }
{
    x.clamp(-1_000_000, 1_000_000)
}

/// The sum of two coordinates, within -1,000,000 to 1,000,000.
fn moved(x: i64, by: i64) -> i64
    ensures { result ≡ clamped (x +ℤ by) }
{
    within(x.saturating_add(by))
}

fn needs_send<T: Send + Sync>(_value: &T) {}

/// Counts, cells and tables are shared by threads.
pub fn is_shared_by_threads(made: &Made, cell: &StateCell, table: &FamilyTable) {
    needs_send(made);
    needs_send(cell);
    needs_send(table);
}

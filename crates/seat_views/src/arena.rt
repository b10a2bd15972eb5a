//! The words that threads share.

ghost use Rattle.std.specs.Prelude.{◌≡◌, ◌%◌, ◌<◌, ℕ, length, IfOk};
ghost use Rattle.op_table.specs.Call.{CallFits};
ghost use Rattle.place_core.specs.declared.places.WordOp.{WordOp};
ghost use Rattle.place_core.specs.declared.places.Path.TheVariants.{One};
ghost use Rattle.place_core.specs.Shapes.{kind_of, IsShape};
ghost use Rattle.place_core.specs.Operations.{OpServes, plan_of};
ghost use Rattle.layout_plan.specs.Plans.{ArePlansOf};
ghost use Rattle.seat_views.specs.Starts.{Begins};
ghost use Rattle.seat_views.specs.States.{Opens};

use crate::pass::Pass;
use crate::root::Root;
use crate::rule::ArenaRule;
use crate::starts::starts;
use crate::view::{Opening, View};
use atomic_table::Table;
use layout_plan::Plans;
use op_table::{Call, NoMemory};
use place_core::{Path, Shape};
use std::alloc::{AllocError, Global};
use std::marker::Model;

/// The words of an arena, which threads share, and what lies where. Contracts see which table it is, the shape, and
/// the stamp that each lock began with.
#[derive(Drop)]
pub struct Arena {
    pub(crate) table: Table<(), View, Opening, ArenaRule, Global>,
    pub(crate) opening: Opening,
    plans: Plans,
}

impl Model for Arena {
    ghost use Rattle.seat_views.specs.States.{ArenaState};

    ghost Value = { ArenaState };

    ghost use Rattle.seat_views.specs.States.{arena_of};
    ghost use Rattle.seat_views.specs.Keeping.{KeepsArena};

    ghost view = { λ a. arena_of a.table.shared.table_id a.opening };

    ghost invariant = { λ a. KeepsArena a.table.shared.key a.table.shared.table_id a.opening a.plans };
}

impl Arena {
    /// The arena of these words, and its root's pass.
    fn laid(
        alloc: Global,
        words: &[u64],
        opening: Opening,
        plans: Plans,
    ) -> Result<(Arena, Pass), AllocError>
        requires shape { IsShape opening.shape }
        requires plans { ArePlansOf plans opening.shape }
        requires even { opening.first_stamp % 2 ≡ 0 }
        requires words { Begins opening words.now }
        ensures { IfOk result (λ r. Opens opening.shape opening.first_stamp r.0 r.1) }
    {
        let (table, seat) = Table::of_words(alloc, words, &opening)?;
        let arena = Arena {
            table,
            opening,
            plans,
        };
        Ok((arena, Pass::of(0, 0, seat)))
    }

    /// Opens an arena in which every object has its start and every lock the stamp, and gives its root. Where memory is
    /// refused the shape is dropped.
    pub fn open(alloc: Global, shape: Shape, first_stamp: u64) -> Result<(Arena, Root), NoMemory>
        requires shape { IsShape shape }
        requires even { first_stamp % 2 ≡ 0 }
        ensures { IfOk result (λ r. Opens shape first_stamp r.0 r.1) }
    {
        let plans = Plans::of(alloc, &shape)?;
        let words = starts(alloc, &shape, first_stamp)?;
        let opening = Opening { shape, first_stamp };
        let (arena, pass) = Arena::laid(alloc, words.as_slice(), opening, plans).map_err(
            |_| NoMemory,
        )?;
        Ok((arena, Root::of(pass)))
    }

    /// The shape that the arena was opened with.
    #[inline(always)]
    pub fn shape(&self) -> &Shape
        ensures value { result.now ≡ self.now.shape }
        ensures valid { IsShape self.now.shape }
    {
        &self.opening.shape
    }

    /// How a call on an object is made, in a few steps.
    #[inline(always)]
    pub fn plan(&self, object: u32, call: &Call) -> Path
        requires object { object < length self.now.shape.objects }
        requires fits { CallFits (kind_of self.now.shape object) call.now }
        ensures path { result ≡ plan_of self.now.shape object call.now }
        ensures serves { (done : WordOp) → result ≡ One done → OpServes self.now.shape object call.now done }
    {
        self.plans.plan(&self.opening.shape, object, call)
    }
}

//! From a kind to the type that has its values.

ghost use Rattle.std.specs.Prelude.{◌≡◌, ◌≢◌, ◌<◌, length};
ghost use Rattle.op_table.specs.declared.kind.Class.TheVariants.{Bool, Int, Ptr};
ghost use Rattle.op_table.specs.declared.kind.Width.TheVariants.{W1, W128};
ghost use Rattle.place_core.specs.Shapes.{kind_of};
ghost use Rattle.layout_plan.specs.Laws.{HasLane};
ghost use Rattle.scalar_laws.specs.Kinds.{address, integer, truth};

use op_table::Kind;
use seat_views::Arena;

/// The kind of an object.
pub(crate) fn kind_at(arena: &Arena, object: u32) -> Kind
    requires { object < length arena.now.shape.objects }
    ensures kind { result ≡ kind_of arena.now.shape object }
    ensures truth { result.class ≡ Bool → result ≡ truth }
    ensures address { result.class ≡ Ptr → result ≡ address }
    ensures number { result.class ≡ Int → (result ≡ integer result.width result.signed) × (result.width ≢ W1) }
{
    arena.shape().objects.at(object as usize).kind
}

/// A lane has the width of a word at most.
pub(crate) fn fits_in_word(arena: &Arena, object: u32)
    requires { HasLane arena.now.shape object }
    ensures { (kind_of arena.now.shape object).width ≢ W128 }
{
    let _shape = arena.shape();
}

// Calls a function at the type of a kind. Where the width is 1 or 128 bits and the kind is a number's, the arms given
// in braces decide.
macro_rules! at_kind {
    ($kind:ident, $call:ident, $how:ty, $args:tt, { $($unsigned:tt)* }, { $($signed:tt)* }) => {
        match $kind.class {
            Class::Bool => $call::<bool, $how> $args,
            Class::Ptr => $call::<Addr, $how> $args,
            Class::Int => if $kind.signed {
                match $kind.width {
                    Width::W8 => $call::<i8, $how> $args,
                    Width::W16 => $call::<i16, $how> $args,
                    Width::W32 => $call::<i32, $how> $args,
                    Width::W64 => $call::<i64, $how> $args,
                    $($signed)*
                }
            } else {
                match $kind.width {
                    Width::W8 => $call::<u8, $how> $args,
                    Width::W16 => $call::<u16, $how> $args,
                    Width::W32 => $call::<u32, $how> $args,
                    Width::W64 => $call::<u64, $how> $args,
                    $($unsigned)*
                }
            },
        }
    };
}

// The same at a kind that fits in a word.
macro_rules! at_word_kind {
    ($kind:ident, $call:ident, $how:ty, $args:tt) => {
        at_kind!($kind, $call, $how, $args, { _ => unreachable!(), }, { _ => unreachable!(), })
    };
}

// The same at any kind.
macro_rules! at_any_kind {
    ($kind:ident, $call:ident, $how:ty, $args:tt) => {
        at_kind!(
            $kind, $call, $how, $args,
            { Width::W128 => $call::<u128, $how> $args, Width::W1 => unreachable!(), },
            { Width::W128 => $call::<i128, $how> $args, Width::W1 => unreachable!(), }
        )
    };
}

pub(crate) use at_any_kind;
pub(crate) use at_kind;
pub(crate) use at_word_kind;

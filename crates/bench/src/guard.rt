// The shape, asked once at the start of each call on a board, and the load with it: on a board in shape the engine may run.
ghost use Rattle.std.specs.Prelude.{◌≡◌, is_some, IfSome};
ghost use Rattle.rules.specs.Board.{load};
ghost use Rattle.rules.specs.Shape.{in_shape};
ghost use Rattle.engine.specs.Ready.{Ready};

use rules::Board;

// The load of a board in shape; none for a board that is not.
pub fn load_if_ready(b: Board) -> Option<usize>
    ensures shape { is_some result ≡ in_shape b }
    ensures ready { IfSome result (λ n. Ready b × (n ≡ load b)) }
{
    shape::load_in_shape(b)
}

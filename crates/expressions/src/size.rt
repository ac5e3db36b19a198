ghost use Rattle.std.specs.Prelude.{◌≡◌, ◌-◌, ◌^◌, ◌<◌, ◌≤◌, nat_le};
ghost use Rattle.std.specs.Option.{SomeIff};
ghost use Rattle.traces.specs.Order.{size};
ghost use Rattle.expressions.specs.Model.{model};

use crate::expr::Expr;

impl Expr {
    /// What is left of room for so many symbols, or none if the expression has more.
    pub fn room_left(&self, room: usize) -> Option<usize>
        ensures { SomeIff result (size (model self.now) ≤ room) (room - size (model self.now)) }
    {
        match self {
            Expr::Event(_) | Expr::One | Expr::Zero => room.checked_sub(1),
            Expr::Sum(a, b) | Expr::Cat(a, b) => b.room_left(a.room_left(room.checked_sub(1)?)?),
            Expr::Star(a) => a.room_left(room.checked_sub(1)?),
        }
    }

    /// Whether the expression has at most so many symbols.
    pub fn fits(&self, limit: usize) -> bool
        ensures { result ≡ nat_le (size (model self.now)) limit }
    {
        self.room_left(limit).is_some()
    }

    /// The number of symbols, none if no usize can hold it.
    pub fn size(&self) -> Option<usize>
        ensures { SomeIff result (size (model self.now) < 2 ^ 64) (size (model self.now)) }
    {
        let rest = self.room_left(usize::MAX)?;
        Some(usize::MAX - rest)
    }
}

// 02: who gave a record its value.
ghost use Rattle.std.specs.Prelude.{◌≡◌};
ghost use Rattle.wing_mirror.specs.Origin.{origin_number};

// The console, or a set order at the box.
#[derive(Clone, Copy)]
pub enum Origin {
    Console,
    SetOrder,
}

// 02: 0 for the console, 1 for a set order.
impl From<Origin> for u8 {
    ghost from_gives = { λ origin number. number ≡ origin_number origin };

    #[tactic(auto, unfolding(crate::specs::Origin::origin_number))]
    fn from(origin: Origin) -> u8 {
        match origin {
            Origin::Console => 0,
            Origin::SetOrder => 1,
        }
    }
}

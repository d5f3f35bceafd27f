// The roles of those who call.
ghost use Rattle.std.specs.Prelude.{◌≡◌};
ghost use Rattle.sheet.specs.Roles.{IsNamed, number_of};

use refusals::Refusal;

// Each may do what the one before may.
#[derive(Clone, Copy, Debug, PartialEq, Eq, PartialOrd, Ord)]
pub enum Role {
    Reader = 1,
    Editor = 2,
    Manager = 3,
}

impl TryFrom<u32> for Role {
    type Error = Refusal;

    ghost try_from_gives = { IsNamed };

    fn try_from(number: u32) -> Result<Role, Refusal> {
        match number {
            1 => Ok(Role::Reader),
            2 => Ok(Role::Editor),
            3 => Ok(Role::Manager),
            _ => Err(Refusal::Role),
        }
    }
}

impl From<Role> for u32 {
    ghost from_gives = { λ role number. number ≡ number_of role };

    fn from(role: Role) -> u32 {
        role as u32
    }
}

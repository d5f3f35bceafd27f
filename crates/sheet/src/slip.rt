// The slip that comes with a drawn plan.
ghost use Rattle.std.specs.Prelude.{◌≡◌, true, false};

// Bears the tag of its sheet. It ends in a publish or a withdraw: the check refuses a program that
// lets one go.
pub struct Slip {
    tag: u32,
    // A rule of the project asks for a drop contract, and a contract needs a field to speak of.
    spent: bool,
}

impl Drop for Slip {
    fn drop(self)
        requires { self.spent ≡ true }
    {
        let Slip { tag: _, spent: _ } = self;
    }
}

impl Slip {
    pub(crate) fn of_tag(tag: u32) -> Slip
        ensures { result ≡ record { tag = tag; spent = false } }
    {
        Slip { tag, spent: false }
    }

    pub fn tag(&self) -> u32
        ensures { result ≡ self.now.tag }
    {
        self.tag
    }

    // Ends the slip, and answers its tag.
    pub(crate) fn spend(self) -> u32
        ensures { result ≡ self.tag }
    {
        let Slip { tag, spent: _ } = self;
        tag
    }
}

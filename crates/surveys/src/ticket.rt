// Tickets.
ghost use Rattle.std.specs.Prelude.{◌≡◌, ◌≤◌};
ghost use Rattle.surveys.specs.Gathered.{returning};

/// The right to one block of a survey that is out. It comes only from issuing the block, and must be settled, worked or given back: letting
/// it go requires a block that no survey has, since a survey has at most 256. So nothing is derived for it: a ticket is not copied.
pub struct Ticket {
    survey: u32,
    block: u32,
}

impl Drop for Ticket {
    fn drop(self)
        requires is_for_no_block { 256 ≤ self.block }
    {
        let Ticket {
            survey: _,
            block: _,
        } = self;
    }
}

impl Ticket {
    /// The ticket for a block that is being issued. No other place makes one.
    pub(super) fn issue(survey: u32, block: u32) -> Ticket
        ensures of_this_survey_and_block { result ≡ record { survey = survey; block = block } }
    {
        Ticket { survey, block }
    }

    /// Takes the ticket back.
    fn spend(self) {
        let Ticket {
            survey: _,
            block: _,
        } = self;
    }

    /// Takes the ticket back where a call was accepted, and hands it back beside the refusal where not. A `match` and no `map_err`: both arms
    /// take the ticket.
    pub(super) fn spent_on<E>(self, outcome: Result<(), E>) -> Result<(), (E, Ticket)>
        ensures hands_it_back_with_a_refusal { result ≡ returning self outcome }
    {
        match outcome {
            Ok(()) => {
                self.spend();
                Ok(())
            }
            Err(refusal) => Err((refusal, self)),
        }
    }

    /// The number of the survey that issued it.
    pub fn survey(&self) -> u32
        ensures is_the_surveys_number { result ≡ self.now.survey }
    {
        self.survey
    }

    /// The block that it is for.
    pub fn block(&self) -> u32
        ensures is_the_block { result ≡ self.now.block }
    {
        self.block
    }
}

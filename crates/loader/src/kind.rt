// Kinds of records: how long a record is, and which may follow which.
ghost use Rattle.std.specs.Prelude.{◌≡◌};
ghost use Rattle.model.specs.Answer.{or_else};
ghost use Rattle.model.specs.Loading.{body_bytes, follows as follows_of};
ghost use Rattle.loader.specs.Kinds.{kind_byte, last_byte, Declares};

use crate::refusal::Refusal;

#[derive(Clone, Copy)]
pub enum Kind {
    Class,
    Field,
    Method,
    Parameter,
    Local,
    Entry,
}

// The kind that a byte declares.
impl TryFrom<u8> for Kind {
    type Error = Refusal;

    ghost try_from_gives = { Declares };

    #[tactic(auto, unfolding(model::specs::Loading::body_bytes, model::specs::Answer::pick, model::specs::Answer::only_if))]
    fn try_from(byte: u8) -> Result<Kind, Refusal> {
        match byte {
            1 => Ok(Kind::Class),
            2 => Ok(Kind::Field),
            3 => Ok(Kind::Method),
            4 => Ok(Kind::Parameter),
            5 => Ok(Kind::Local),
            6 => Ok(Kind::Entry),
            _ => Err(Refusal::BadRecord),
        }
    }
}

impl Kind {
    // How many bytes a record has behind its kind.
    #[tactic(auto, unfolding(model::specs::Loading::body_bytes, model::specs::Answer::or_else, model::specs::Answer::pick, model::specs::Answer::only_if))]
    pub fn size(self) -> usize
        ensures { result ≡ or_else (body_bytes (kind_byte self)) 0 }
    {
        match self {
            Kind::Field => 3,
            Kind::Method => 11,
            _ => 1,
        }
    }

    // Whether a record of this kind may follow one of the kind `last`, or be the first.
    #[tactic(auto, unfolding(model::specs::Loading::follows, model::specs::Loading::within, model::specs::Answer::pick))]
    pub fn follows(self, last: Option<Kind>) -> bool
        ensures { result ≡ follows_of (last_byte last) (kind_byte self) }
    {
        match self {
            Kind::Class => matches!(last, None | Some(Kind::Class)),
            Kind::Field => matches!(last, Some(Kind::Class | Kind::Field)),
            Kind::Parameter => matches!(last, Some(Kind::Method | Kind::Parameter)),
            Kind::Local => matches!(last, Some(Kind::Method | Kind::Parameter | Kind::Local)),
            Kind::Method | Kind::Entry => !matches!(last, None | Some(Kind::Entry)),
        }
    }
}

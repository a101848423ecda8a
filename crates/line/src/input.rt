// The input of `turn`: two bytes of table length, tables, code.
ghost use Rattle.std.specs.Prelude.{◌≡◌, ◌+◌, ◌-◌, take, drop, Ok};
ghost use Rattle.model.specs.Loading.{little};
ghost use Rattle.model.specs.Turn.{answer};
ghost use Rattle.line.specs.Announced.{announced_by, answered, number_of};

// The bytes of the tables' length.
const LENGTH: usize = 2;

// As many bytes as tables and code have at most.
const MOST_TABLES: usize = 8192;

const MOST_CODE: usize = 32768;

// Why an input is refused: it is shorter than it announces, or too long.
#[derive(Clone, Copy, PartialEq, Eq)]
pub enum Refused {
    Cut,
    TooLong,
}

// The number that is printed for it.
impl From<Refused> for u8 {
    ghost from_gives = { λ refused number. number ≡ number_of refused };

    fn from(refused: Refused) -> u8 {
        match refused {
            Refused::Cut => 9,
            Refused::TooLong => 1,
        }
    }
}

// Where the code begins.
pub fn announced(input: &[u8]) -> Result<usize, Refused>
    ensures input_value { answered result input.now ≡ answer input.now }
    ensures value { result ≡ announced_by input.now }
{
    if input.len() < LENGTH {
        return Err(Refused::Cut);
    }
    let tables = code::little::little2(input) as usize;
    let start = LENGTH + tables;
    if tables > MOST_TABLES {
        return Err(Refused::TooLong);
    }
    if input.len() < start {
        return Err(Refused::Cut);
    }
    if input.len() - start > MOST_CODE {
        return Err(Refused::TooLong);
    }
    Ok(start)
}

// The tables, where the code begins at `start`.
pub fn tables_of(input: &[u8], start: usize) -> &[u8]
    ensures result_value { result.now ≡ take (start - 2) (drop 2 input.now) }
    ensures as_model { announced_by input.now ≡ Ok start → result.now ≡ take (little 2 input.now) (drop 2 input.now) }
{
    code::part::part(input, LENGTH, start.saturating_sub(LENGTH))
}

// The code, where it begins at `start`.
pub fn code_of(input: &[u8], start: usize) -> &[u8]
    ensures result_value { result.now ≡ drop start input.now }
    ensures as_model { announced_by input.now ≡ Ok start → result.now ≡ drop (2 + little 2 input.now) input.now }
{
    code::part::after(input, start)
}

ghost use Rattle.std.specs.Prelude.{◌≡◌};
ghost use Rattle.bag.specs.Condition.{stands, relation_of};

// How a column and what it is compared with must stand to each other.
#[derive(Clone, Copy, PartialEq, Eq, Debug)]
pub enum Relation {
    Less,
    LessOrEqual,
    Equal,
    NotEqual,
    GreaterOrEqual,
    Greater,
}

// A number that stands for no relation.
#[derive(Clone, Copy, PartialEq, Eq, Debug)]
pub struct UnknownRelation;

impl TryFrom<u8> for Relation {
    type Error = UnknownRelation;

    ghost try_from_gives = { λ number result. result ≡ relation_of number };

    fn try_from(number: u8) -> Result<Relation, UnknownRelation> {
        match number {
            0 => Ok(Relation::Less),
            1 => Ok(Relation::LessOrEqual),
            2 => Ok(Relation::Equal),
            3 => Ok(Relation::NotEqual),
            4 => Ok(Relation::GreaterOrEqual),
            5 => Ok(Relation::Greater),
            _ => Err(UnknownRelation),
        }
    }
}

// What a column is compared with: a number, or another column of the row.
#[derive(Clone, Copy, PartialEq, Eq, Debug)]
pub enum Operand {
    Constant(i32),
    Column(u8),
}

// Whether the left number stands in the relation to the right one.
pub fn holds(relation: Relation, left: i32, right: i32) -> bool
    ensures { result ≡ stands relation left right }
{
    match relation {
        Relation::Less => left < right,
        Relation::LessOrEqual => left <= right,
        Relation::Equal => left == right,
        Relation::NotEqual => left != right,
        Relation::GreaterOrEqual => left >= right,
        Relation::Greater => left > right,
    }
}

// What refusals mean, in words.
ghost use Rattle.std.specs.Prelude.{◌≡◌};
ghost use Rattle.formatter.specs.Refusals.{words_of};

use checker::Fault as TableFault;
use grammar::Fault as TextFault;
use listing::Refusal;
use text::WriteRefusal;

pub(crate) fn words_of(refusal: Refusal) -> &'static str
    ensures { result.now ≡ words_of refusal }
{
    match refusal {
        Refusal::Reading(refusal) => match refusal.fault {
            TextFault::TooLong => "the text is longer than 16384 bytes",
            TextFault::BadByte => "a byte that begins no token",
            TextFault::BadNumber =>
                "digits that are missing, begin with a needless 0 or write more than 999999999",
            TextFault::Misplaced => "a token that the forms do not allow here, or an early end",
            TextFault::TooDeep => "a bracket for which no open row is left",
            TextFault::NoTypeRow => "a type for which no type row is left",
            TextFault::NoTermRow => "a term for which no term row is left",
        },
        Refusal::Checking(refusal) => match refusal.fault {
            TableFault::TableSize => "a table with no row, or with too many",
            TableFault::BadType => "a type row that breaks the laws of tables",
            TableFault::BadTerm => "a term row that breaks the laws of tables",
            TableFault::PartUse => "a row that is not a part exactly once",
            TableFault::TooDeep => "a row under more binders than there are sight rows",
            TableFault::Untyped => "a row that has no type",
            TableFault::NotNat => "a rule whose type is not nat",
        },
        Refusal::Writing(WriteRefusal::NoRoom) => "a text longer than 16384 bytes",
    }
}

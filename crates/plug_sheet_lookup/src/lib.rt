// The lookup on a stored sheet.
#![tactic(auto)]

ghost use Rattle.std.specs.Prelude.{◌≡◌};
ghost use Rattle.base_types.specs.Outcome.{outcome_of};
ghost use Rattle.plug_sheet_lookup.specs.Lookup.{sheet_value};

use base_types::refusal::Refusal;

// The variation at a latitude and a column. Refused: 12, then as the lookup on the sheet's image.
#[tactic(auto, using(std::proofs::lemmas::Int::ints), unfolding(crate::specs::Lookup::sheet_value, plug_sheet::specs::Stored::sheet_answer))]
pub fn variation(sheet: &[u8], latitude: i32, column: u32) -> Result<i32, Refusal>
    ensures { outcome_of result ≡ sheet_value 64 sheet.now latitude column }
{
    plug_sheet::stored::judge(sheet)?;
    plug_lookup::variation::at(plug_sheet::stored::image(sheet), latitude, column)
}

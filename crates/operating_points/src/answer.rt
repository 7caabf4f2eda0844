// An operating point takes one station and any doubles, and checks the station by rule 6 alone.
ghost use Rattle.std.specs.Prelude.{◌≡◌, IfOk};
ghost use Rattle.rules.specs.Studies.{number_of, point_refusal};
ghost use Rattle.operating_points.specs.Answer.{lcc_answer, vsc_answer};

use converter::{ConverterOperatingPoint, lcc_point, vsc_point};
use grid::ConverterStation;
use rules::{Refusal, check_operating_point};

// DcSwitchingSimulator::lcc_operating_point
#[tactic(auto, unfolding(rules::specs::Studies::number_of))]
pub fn lcc_operating_point(
    station: ConverterStation,
    i_dc_ka: f64,
) -> Result<ConverterOperatingPoint, Refusal>
    ensures point { IfOk result (λ point. point ≡ lcc_answer station i_dc_ka) }
    ensures refusal { number_of result ≡ point_refusal station }
{
    check_operating_point(station)?;
    Ok(lcc_point(station, i_dc_ka))
}

// DcSwitchingSimulator::vsc_operating_point
#[tactic(auto, unfolding(rules::specs::Studies::number_of))]
pub fn vsc_operating_point(
    station: ConverterStation,
    p_mw: f64,
    v_dc_kv: f64,
) -> Result<ConverterOperatingPoint, Refusal>
    ensures point { IfOk result (λ point. point ≡ vsc_answer station p_mw v_dc_kv) }
    ensures refusal { number_of result ≡ point_refusal station }
{
    check_operating_point(station)?;
    Ok(vsc_point(station, p_mw, v_dc_kv))
}

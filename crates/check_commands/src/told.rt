//! What a plan has against it, in words or as JSON.
ghost use Rattle.std.specs.Prelude.{◌≡◌, ◌++◌, ◌∷◌, OnOk, OnErr};
ghost use Rattle.text_io.specs.Sink.{Puts, Breaks};
ghost use Rattle.text_io.specs.Text.{separated, spaced_numbers};
ghost use Rattle.depgraph.specs.Rotations.{turn_of};
ghost use Rattle.check_commands.specs.Code.Listing.{told_against, told_text};
ghost use Rattle.check_commands.specs.FaultsText.{fit_fault_json, listed_numbers, of_turn};
ghost use Rattle.check_commands.specs.FaultsText.{plan_fault_json, told_json, line_of_told};

use depgraph::Rotation;
use ending::{Piece, put_ended, put_fault_line, put_pieces};
use fitting::FitFault;
use model::PlanFault;
use std::io::Write;
use text_io::{Sink, WriteFault};

/// What a plan has against it.
#[derive(Clone, Copy)]
pub(crate) enum Against<'a> {
    Plan(PlanFault),
    /// In this it differs from what is asked for.
    Fit(FitFault),
    Turn(&'a Rotation),
}

/// Puts it as a line, or as JSON.
pub(crate) fn put_told<W: Write>(
    sink: &mut Sink<'_, W>,
    json: bool,
    told: Against<'_>,
) -> Result<(), WriteFault>
    ensures ok { OnOk result
        (Puts W.contents sink.old sink.new (told_text json (told_against told.entry))) }
    ensures err { OnErr result
        (Breaks W.contents sink.old sink.new (told_text json (told_against told.entry))) }
{
    if json {
        put_json(sink, told)
    } else {
        put_line(sink, told)
    }
}

fn put_line<W: Write>(sink: &mut Sink<'_, W>, told: Against<'_>) -> Result<(), WriteFault>
    ensures ok { OnOk result
        (Puts W.contents sink.old sink.new (line_of_told (told_against told.entry))) }
    ensures err { OnErr result
        (Breaks W.contents sink.old sink.new (line_of_told (told_against told.entry))) }
{
    match told {
        Against::Plan(fault) => put_fault_line(sink, b"rejected ", fault.words()),
        Against::Fit(fault) => put_fault_line(sink, b"rejected ", fault.words()),
        Against::Turn(rotation) => put_turn(sink, b"rejected Rotation", rotation, b"\n"),
    }
}

/// Puts the step of a rotation and its agents between two texts.
pub(crate) fn put_turn<W: Write>(
    sink: &mut Sink<'_, W>,
    head: &[u8],
    rotation: &Rotation,
    end: &[u8],
) -> Result<(), WriteFault>
    ensures ok { OnOk result
        (Puts W.contents sink.old sink.new
        (head.now ++ spaced_numbers ((turn_of rotation.now).step ∷ (turn_of rotation.now).agents)
        ++ end.now)) }
    ensures err { OnErr result
        (Breaks W.contents sink.old sink.new
        (head.now ++ spaced_numbers ((turn_of rotation.now).step ∷ (turn_of rotation.now).agents)
        ++ end.now)) }
{
    sink.put(head)?;
    sink.put_number_after(b' ', u64::from(rotation.step))?;
    put_agents(sink, b' ', &rotation.agents)?;
    sink.put(end)
}

/// Puts agents, each behind a byte that separates.
fn put_agents<W: Write>(
    sink: &mut Sink<'_, W>,
    separator: u8,
    agents: &[u16],
) -> Result<(), WriteFault>
    ensures ok { OnOk result (Puts W.contents sink.old sink.new (separated separator agents.now)) }
    ensures err { OnErr result
        (Breaks W.contents sink.old sink.new (separated separator agents.now)) }
{
    for agent in agents {
        sink.put_number_after(separator, u64::from(*agent))?;
    }
    Ok(())
}

fn put_json<W: Write>(sink: &mut Sink<'_, W>, told: Against<'_>) -> Result<(), WriteFault>
    ensures ok { OnOk result
        (Puts W.contents sink.old sink.new (told_json (told_against told.entry))) }
    ensures err { OnErr result
        (Breaks W.contents sink.old sink.new (told_json (told_against told.entry))) }
{
    match told {
        Against::Plan(fault) => put_plan_fault(sink, fault),
        Against::Fit(fault) => put_fit_fault(sink, fault),
        Against::Turn(rotation) => put_turn_json(sink, rotation),
    }
}

fn put_plan_fault<W: Write>(sink: &mut Sink<'_, W>, fault: PlanFault) -> Result<(), WriteFault>
    ensures ok { OnOk result (Puts W.contents sink.old sink.new (plan_fault_json fault)) }
    ensures err { OnErr result (Breaks W.contents sink.old sink.new (plan_fault_json fault)) }
{
    match fault {
        PlanFault::BadStart(agent) => {
            let agent = Piece::new(b"{\"kind\":\"BadStart\",\"agent\":", u128::from(agent));
            put_ended(sink, &[agent], b"}")
        }
        PlanFault::BadMove(agent, step) => {
            let agent = Piece::new(b"{\"kind\":\"BadMove\",\"agent\":", u128::from(agent));
            let step = Piece::new(b",\"step\":", u128::from(step));
            put_ended(sink, &[agent, step], b"}")
        }
        PlanFault::Vertex(first, second, time, cell) => {
            let first = Piece::new(b"{\"kind\":\"Vertex\",\"agents\":[", u128::from(first));
            let second = Piece::new(b",", u128::from(second));
            let time = Piece::new(b"],\"time\":", u128::from(time));
            let x = Piece::new(b",\"x\":", u128::from(cell.x));
            let y = Piece::new(b",\"y\":", u128::from(cell.y));
            put_ended(sink, &[first, second, time, x, y], b"}")
        }
        PlanFault::Swap(first, second, step) => {
            let first = Piece::new(b"{\"kind\":\"Swap\",\"agents\":[", u128::from(first));
            let second = Piece::new(b",", u128::from(second));
            let step = Piece::new(b"],\"step\":", u128::from(step));
            put_ended(sink, &[first, second, step], b"}")
        }
        PlanFault::OutOfMemory => sink.put(b"{\"kind\":\"OutOfMemory\"}"),
    }
}

fn put_fit_fault<W: Write>(sink: &mut Sink<'_, W>, fault: FitFault) -> Result<(), WriteFault>
    ensures ok { OnOk result (Puts W.contents sink.old sink.new (fit_fault_json fault)) }
    ensures err { OnErr result (Breaks W.contents sink.old sink.new (fit_fault_json fault)) }
{
    match fault {
        FitFault::TooFewRows => sink.put(b"{\"kind\":\"TooFewRows\"}"),
        FitFault::AgentCount => sink.put(b"{\"kind\":\"AgentCount\"}"),
        FitFault::StartDiffers(agent) => {
            let agent = Piece::new(b"{\"kind\":\"StartDiffers\",\"agent\":", u128::from(agent));
            put_ended(sink, &[agent], b"}")
        }
        FitFault::GoalDiffers(agent) => {
            let agent = Piece::new(b"{\"kind\":\"GoalDiffers\",\"agent\":", u128::from(agent));
            put_ended(sink, &[agent], b"}")
        }
        FitFault::SizeDiffers(row) => {
            let agent = Piece::new(b"{\"kind\":\"SizeDiffers\",\"agent\":", u128::from(row));
            put_ended(sink, &[agent], b"}")
        }
    }
}

fn put_turn_json<W: Write>(sink: &mut Sink<'_, W>, rotation: &Rotation) -> Result<(), WriteFault>
    ensures ok { OnOk result
        (Puts W.contents sink.old sink.new (told_json (of_turn (turn_of rotation.now)))) }
    ensures err { OnErr result
        (Breaks W.contents sink.old sink.new (told_json (of_turn (turn_of rotation.now)))) }
{
    let step = Piece::new(
        b"{\"kind\":\"Rotation\",\"step\":",
        u128::from(rotation.step),
    );
    put_ended(sink, &[step], b",\"agents\":[")?;
    put_listed(sink, &rotation.agents)?;
    sink.put(b"]}")
}

/// Puts agents with a comma between each two.
fn put_listed<W: Write>(sink: &mut Sink<'_, W>, agents: &[u16]) -> Result<(), WriteFault>
    ensures ok { OnOk result (Puts W.contents sink.old sink.new (listed_numbers agents.now)) }
    ensures err { OnErr result (Breaks W.contents sink.old sink.new (listed_numbers agents.now)) }
{
    let Some((first, others)) = agents.split_first() else {
        return Ok(());
    };
    put_pieces(sink, &[Piece::new(b"", u128::from(*first))])?;
    put_agents(sink, b',', others)
}

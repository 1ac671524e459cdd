//! The lines that are drawn, one after another.

ghost use Rattle.std.specs.Prelude.{◌≡◌, ◌≤◌, ◌^◌, IfOk, ◌∷◌, [], true, false};
ghost use Rattle.sweep.specs.Lines.{AreUpTo, generator_of, with_up, boot, number_after, ask_at, ask};
ghost use Rattle.sweep.specs.Lines.{fail, line_at, server_of, line_at_any, advance, pair_of, pump_two};
ghost use Rattle.sweep.specs.Lines.{line_of_kind, next_line};

use crate::calls::any_call;
use crate::draws::Draws;
use crate::line_kind::{LineKind, ServerLine};
use harp_types::{SUPERUSER, ServerId, Trio};
use std::alloc::{AllocError, Global};
use trace_types::{Bits, Pick, Step};

/// Where the draws are, and what the lines so far came to.
#[derive(Clone, Copy)]
pub struct Generator {
    draws: Draws,
    /// Which servers are up.
    up: Trio<bool>,
    /// The last number of each client, 0 for none.
    numbers: [u64; 4],
}

/// A client's number after its last one, or that one again in one of eight draws.
fn number_after(last: u64, chance: u64) -> u64
    requires { last ≤ 2 ^ 32 }
    ensures { result ≡ number_after last chance }
{
    if chance == 0 && last != 0 {
        last
    } else {
        last + 1
    }
}

/// The server of a number below 3.
fn server_of(number: u64) -> ServerId
    ensures { result ≡ server_of number }
{
    match number {
        0 => ServerId::Zero,
        1 => ServerId::One,
        _ => ServerId::Two,
    }
}

/// The pair of servers of a number below 3.
fn pair_of(number: u64) -> (ServerId, ServerId)
    ensures { result ≡ pair_of number }
{
    match number {
        0 => (ServerId::Zero, ServerId::One),
        1 => (ServerId::Zero, ServerId::Two),
        _ => (ServerId::One, ServerId::Two),
    }
}

/// The pick that keeps every second change, the first one too.
fn every_second(alloc: Global) -> Result<Pick, AllocError>
    ensures { IfOk result (λ pick. pick ≡ Pick.Bits (true ∷ false ∷ [])) }
{
    let mut items = Vec::new(alloc);
    items.push(true)?;
    items.push(false)?;
    match Bits::of(items) {
        Some(bits) => Ok(Pick::Bits(bits)),
        None => unreachable!(),
    }
}

impl Generator {
    /// All servers are up, and no client has asked.
    pub fn of(seed: u64) -> Generator
        ensures { result ≡ generator_of seed }
    {
        Generator {
            draws: Draws::of(seed),
            up: Trio {
                zero: true,
                one: true,
                two: true,
            },
            numbers: [0; 4],
        }
    }

    /// A server is up from now on, or down.
    fn set_up(&mut self, server: ServerId, is_up: bool)
        ensures { self.new ≡ with_up is_up server self.old }
    {
        match server {
            ServerId::Zero => self.up.zero = is_up,
            ServerId::One => self.up.one = is_up,
            ServerId::Two => self.up.two = is_up,
        }
    }

    /// The server that is down begins anew.
    #[tactic(auto, unfolding(crate::specs::Lines::boot))]
    fn boot(&mut self, server: ServerId) -> Step
        ensures { boot server self.old ≡ (result, self.new) }
    {
        self.set_up(server, true);
        Step::Boot { server }
    }

    /// One of four clients asks a server.
    #[tactic(auto, unfolding(crate::specs::Lines::ask_at))]
    fn ask_at(&mut self, alloc: Global, server: ServerId) -> Result<Step, AllocError>
        requires { AreUpTo (2 ^ 32) self.old }
        ensures { IfOk result (λ step. ask_at server self.old ≡ (step, self.new)) }
    {
        let client = self.draws.below(4);
        let chance = self.draws.below(8);
        let call = any_call(alloc, &mut self.draws)?;
        let number = number_after(self.numbers[client as usize], chance);
        self.numbers[client as usize] = number;
        Ok(Step::Ask {
            server,
            client: client as u32,
            number,
            cred: SUPERUSER,
            call,
        })
    }

    /// The first server that stores copies and is up is asked; where neither is, one begins anew.
    #[tactic(auto, unfolding(crate::specs::Lines::ask))]
    fn ask(&mut self, alloc: Global) -> Result<Step, AllocError>
        requires { AreUpTo (2 ^ 32) self.old }
        ensures { IfOk result (λ step. ask self.old ≡ (step, self.new)) }
    {
        if self.up.zero {
            self.ask_at(alloc, ServerId::Zero)
        } else if self.up.one {
            self.ask_at(alloc, ServerId::One)
        } else {
            Ok(self.boot(ServerId::Zero))
        }
    }

    /// A server crashes, or its power fails.
    #[tactic(auto, unfolding(crate::specs::Lines::fail))]
    fn fail(&mut self, alloc: Global, server: ServerId) -> Result<Step, AllocError>
        ensures { IfOk result (λ step. fail server self.old ≡ (step, self.new)) }
    {
        let chance = self.draws.below(4);
        self.set_up(server, false);
        if chance == 0 {
            let pick = every_second(alloc)?;
            Ok(Step::Crash { server, pick })
        } else {
            Ok(Step::Power { server })
        }
    }

    /// A line for a server that is up.
    #[tactic(auto, unfolding(crate::specs::Lines::line_at))]
    fn line_at(
        &mut self,
        alloc: Global,
        line: ServerLine,
        server: ServerId,
    ) -> Result<Step, AllocError>
        ensures { IfOk result (λ step. line_at line server self.old ≡ (step, self.new)) }
    {
        match line {
            ServerLine::Fail => self.fail(alloc, server),
            ServerLine::Suspect => Ok(Step::Suspect { server }),
            ServerLine::Apply => Ok(Step::Apply { server, most: 8 }),
            ServerLine::Flush => Ok(Step::Flush { server }),
            ServerLine::Tick => Ok(Step::Tick { server }),
        }
    }

    /// A line for any of the servers, which begins anew where it is down.
    #[tactic(auto, unfolding(crate::specs::Lines::line_at_any))]
    fn line_at_any(&mut self, alloc: Global, line: ServerLine) -> Result<Step, AllocError>
        ensures { IfOk result (λ step. line_at_any line self.old ≡ (step, self.new)) }
    {
        let server = server_of(self.draws.below(3));
        if *self.up.get(server) {
            self.line_at(alloc, line, server)
        } else {
            Ok(self.boot(server))
        }
    }

    /// Some time passes.
    #[tactic(auto, unfolding(crate::specs::Lines::advance))]
    fn advance(&mut self) -> Step
        ensures { advance self.old ≡ (result, self.new) }
    {
        let millis = self.draws.below(1500) + 1;
        Step::Advance { millis }
    }

    /// Packets between two of the servers arrive.
    #[tactic(auto, unfolding(crate::specs::Lines::pump_two))]
    fn pump_two(&mut self) -> Step
        ensures { pump_two self.old ≡ (result, self.new) }
    {
        let pair = pair_of(self.draws.below(3));
        Step::Pump { among: Some(pair) }
    }

    #[tactic(auto, unfolding(crate::specs::Lines::line_of_kind))]
    fn line_of_kind(&mut self, alloc: Global, kind: LineKind) -> Result<Step, AllocError>
        requires { AreUpTo (2 ^ 32) self.old }
        ensures { IfOk result (λ step. line_of_kind kind self.old ≡ (step, self.new)) }
    {
        match kind {
            LineKind::Ask => self.ask(alloc),
            LineKind::AtAny(line) => self.line_at_any(alloc, line),
            LineKind::Advance => Ok(self.advance()),
            LineKind::PumpTwo => Ok(self.pump_two()),
            LineKind::PumpAll => Ok(Step::Pump { among: None }),
        }
    }

    /// The next line.
    #[tactic(auto, unfolding(crate::specs::Lines::next_line))]
    pub fn next_line(&mut self, alloc: Global) -> Result<Step, AllocError>
        requires { AreUpTo (2 ^ 32) self.old }
        ensures { IfOk result (λ step. next_line self.old ≡ (step, self.new)) }
    {
        let number = self.draws.below(16);
        self.line_of_kind(alloc, LineKind::of(number))
    }
}

// The host: a port, held by value, beside the pipe table; and its calls, total over any numbers, bytes and buffers.
ghost use Rattle.std.specs.Prelude.{◌≡◌, ◌≤◌, length, replicate, Some, None, Err};
ghost use Rattle.pipes.specs.declared.refusals.Refusal.{Refusal as Why};
ghost use Rattle.pipes.specs.Checks.{open_refusal, present, admit_send, admit_fetch, admit_recover};
ghost use Rattle.host.specs.Opening.{clear_run};
ghost use Rattle.host.specs.Sending.{send_run};
ghost use Rattle.host.specs.Fetching.{fetch_run};
ghost use Rattle.host.specs.Calls.{open_end, open_done, send_end, send_done, fetch_end, fetch_done, recover_end, recover_done, close_done, look_answer};

use crate::{fetching, opening, sending};
use pipes::{
    Answer, Event, Looked, Pipe, PipePlan, Refusal, Table, admit_fetch, admit_open, admit_recover,
    admit_send, present,
};
use port::{Port, Toggle};

// It has no model: clauses read the port and the table, and of a call that declines they promise that the very same host is left.
pub struct Host<P> {
    port: P,
    table: Table,
}

impl<P: Port> Host<P> {
    // An unused host: every pipe absent.
    pub fn new(port: P) -> Host<P>
        ensures port { result.port ≡ port }
        ensures table { result.table.pipes ≡ replicate 8 None }
    {
        Host {
            port,
            table: Table::new(),
        }
    }

    // The port, to look at.
    pub fn port(&self) -> &P
        ensures { result.now ≡ self.now.port }
    {
        &self.port
    }

    // The port, for good.
    pub fn into_port(self) -> P
        ensures { result ≡ self.port }
    {
        let Host { port, table: _ } = self;
        port
    }

    // Opens a pipe to a device endpoint: clears the endpoint, and puts the pipe into its place.
    pub fn open(&mut self, number: u8, plan: PipePlan) -> Answer
        ensures answer { result ≡ (open_done self.old.table.pipes (P.meaning self.old.port) number plan.address plan.endpoint plan.direction plan.size plan.limit).answer }
        ensures table { self.new.table.pipes ≡ (open_done self.old.table.pipes (P.meaning self.old.port) number plan.address plan.endpoint plan.direction plan.size plan.limit).places }
        ensures after { P.meaning self.new.port ≡ (open_done self.old.table.pipes (P.meaning self.old.port) number plan.address plan.endpoint plan.direction plan.size plan.limit).bus }
        ensures same { (why : Why) → open_refusal self.old.table.pipes number plan.address plan.endpoint plan.direction plan.size plan.limit ≡ Some why → self.new ≡ self.old }
    {
        match admit_open(&self.table, number, plan) {
            Ok(pipe) => self.open_pipe(number, pipe),
            Err(refusal) => Answer::declined(refusal),
        }
    }

    // Sends a message of 1 to 1,024 bytes over an OUT pipe.
    pub fn send(&mut self, number: u8, message: &[u8]) -> Answer
        ensures answer { result ≡ (send_done self.old.table.pipes (P.meaning self.old.port) number message.now).answer }
        ensures table { self.new.table.pipes ≡ (send_done self.old.table.pipes (P.meaning self.old.port) number message.now).places }
        ensures after { P.meaning self.new.port ≡ (send_done self.old.table.pipes (P.meaning self.old.port) number message.now).bus }
        ensures same { (why : Why) → admit_send self.old.table.pipes number (length message.now) ≡ Err why → self.new ≡ self.old }
    {
        match admit_send(&self.table, number, message.len()) {
            Ok(pipe) => self.send_over(number, pipe, message),
            Err(refusal) => Answer::declined(refusal),
        }
    }

    // Receives packets of an IN pipe into a buffer of 1 to 1,024 bytes, a multiple of the packet size, until one is shorter than the
    // packet size or the buffer is full.
    pub fn fetch(&mut self, number: u8, buffer: &mut [u8]) -> Answer
        ensures answer { result ≡ (fetch_done self.old.table.pipes (P.meaning self.old.port) number buffer.old).answer }
        ensures buffer { buffer.new ≡ (fetch_done self.old.table.pipes (P.meaning self.old.port) number buffer.old).buffer }
        ensures table { self.new.table.pipes ≡ (fetch_done self.old.table.pipes (P.meaning self.old.port) number buffer.old).places }
        ensures after { P.meaning self.new.port ≡ (fetch_done self.old.table.pipes (P.meaning self.old.port) number buffer.old).bus }
        ensures same { (why : Why) → admit_fetch self.old.table.pipes number (length buffer.old) ≡ Err why → (self.new ≡ self.old) × (buffer.new ≡ buffer.old) }
    {
        match admit_fetch(&self.table, number, buffer.len()) {
            Ok(pipe) => self.fetch_over(number, pipe, buffer),
            Err(refusal) => Answer::declined(refusal),
        }
    }

    // Clears the endpoint of a doubtful or halted pipe, so that it is in step again.
    pub fn recover(&mut self, number: u8) -> Answer
        ensures answer { result ≡ (recover_done self.old.table.pipes (P.meaning self.old.port) number).answer }
        ensures table { self.new.table.pipes ≡ (recover_done self.old.table.pipes (P.meaning self.old.port) number).places }
        ensures after { P.meaning self.new.port ≡ (recover_done self.old.table.pipes (P.meaning self.old.port) number).bus }
        ensures same { (why : Why) → admit_recover self.old.table.pipes number ≡ Err why → self.new ≡ self.old }
    {
        match admit_recover(&self.table, number) {
            Ok(pipe) => self.recover_pipe(number, pipe),
            Err(refusal) => Answer::declined(refusal),
        }
    }

    // Shows a pipe's standing and toggle.
    pub fn look(&self, number: u8) -> Result<Looked, Refusal>
        ensures { result ≡ look_answer self.now.table.pipes number }
    {
        let pipe = present(&self.table, number)?;
        Ok(Looked {
            standing: pipe.standing,
            toggle: pipe.toggle,
        })
    }

    // Makes a pipe absent.
    pub fn close(&mut self, number: u8) -> Answer
        ensures answer { result ≡ (close_done self.old.table.pipes (P.meaning self.old.port) number).answer }
        ensures table { self.new.table.pipes ≡ (close_done self.old.table.pipes (P.meaning self.old.port) number).places }
        ensures port { self.new.port ≡ self.old.port }
        ensures same { (why : Why) → present self.old.table.pipes number ≡ Err why → self.new ≡ self.old }
    {
        match present(&self.table, number) {
            Ok(_) => {
                self.table.store(number, None);
                Answer::default()
            }
            Err(refusal) => Answer::declined(refusal),
        }
    }

    // An open of a new pipe, which is put into its place where the endpoint was cleared. It stands by itself, so that a refused open pays
    // nothing for it.
    #[inline(never)]
    fn open_pipe(&mut self, number: u8, pipe: Pipe) -> Answer
        ensures answer { result ≡ (open_end self.old.table.pipes (P.meaning self.old.port) number pipe (clear_run pipe.address pipe.endpoint pipe.direction pipe.limit (P.meaning self.old.port))).answer }
        ensures table { self.new.table.pipes ≡ (open_end self.old.table.pipes (P.meaning self.old.port) number pipe (clear_run pipe.address pipe.endpoint pipe.direction pipe.limit (P.meaning self.old.port))).places }
        ensures after { P.meaning self.new.port ≡ (open_end self.old.table.pipes (P.meaning self.old.port) number pipe (clear_run pipe.address pipe.endpoint pipe.direction pipe.limit (P.meaning self.old.port))).bus }
    {
        let clearing = opening::clear(&mut self.port, pipe);
        if clearing.tally.stop.is_none() {
            self.table.store(number, Some(pipe));
        }
        clearing.tally.answer()
    }

    // A send over a pipe that takes the message.
    fn send_over(&mut self, number: u8, pipe: Pipe, message: &[u8]) -> Answer
        requires { length message.now ≤ 1024 }
        ensures answer { result ≡ (send_end self.old.table.pipes (P.meaning self.old.port) number pipe message.now (send_run pipe message.now (P.meaning self.old.port))).answer }
        ensures table { self.new.table.pipes ≡ (send_end self.old.table.pipes (P.meaning self.old.port) number pipe message.now (send_run pipe message.now (P.meaning self.old.port))).places }
        ensures after { P.meaning self.new.port ≡ (send_end self.old.table.pipes (P.meaning self.old.port) number pipe message.now (send_run pipe message.now (P.meaning self.old.port))).bus }
    {
        let progress = sending::send(&mut self.port, pipe, message);
        let answer = sending::answer(progress, pipe, message);
        self.table
            .settle(number, pipe, progress.toggle, sending::event(answer));
        answer
    }

    // A fetch over a pipe that has packets for the buffer.
    fn fetch_over(&mut self, number: u8, pipe: Pipe, buffer: &mut [u8]) -> Answer
        requires { length buffer.old ≤ 1024 }
        ensures answer { result ≡ (fetch_end self.old.table.pipes (P.meaning self.old.port) number pipe (fetch_run pipe.address pipe.endpoint pipe.size pipe.limit pipe.toggle buffer.old (P.meaning self.old.port))).answer }
        ensures buffer { buffer.new ≡ (fetch_end self.old.table.pipes (P.meaning self.old.port) number pipe (fetch_run pipe.address pipe.endpoint pipe.size pipe.limit pipe.toggle buffer.old (P.meaning self.old.port))).buffer }
        ensures table { self.new.table.pipes ≡ (fetch_end self.old.table.pipes (P.meaning self.old.port) number pipe (fetch_run pipe.address pipe.endpoint pipe.size pipe.limit pipe.toggle buffer.old (P.meaning self.old.port))).places }
        ensures after { P.meaning self.new.port ≡ (fetch_end self.old.table.pipes (P.meaning self.old.port) number pipe (fetch_run pipe.address pipe.endpoint pipe.size pipe.limit pipe.toggle buffer.old (P.meaning self.old.port))).bus }
    {
        let intake = fetching::fetch(&mut self.port, pipe, buffer);
        let answer = fetching::answer(intake);
        self.table
            .settle(number, pipe, intake.toggle, fetching::event(answer));
        answer
    }

    // A recover of a pipe that is not in step.
    fn recover_pipe(&mut self, number: u8, pipe: Pipe) -> Answer
        ensures answer { result ≡ (recover_end self.old.table.pipes (P.meaning self.old.port) number pipe (clear_run pipe.address pipe.endpoint pipe.direction pipe.limit (P.meaning self.old.port))).answer }
        ensures table { self.new.table.pipes ≡ (recover_end self.old.table.pipes (P.meaning self.old.port) number pipe (clear_run pipe.address pipe.endpoint pipe.direction pipe.limit (P.meaning self.old.port))).places }
        ensures after { P.meaning self.new.port ≡ (recover_end self.old.table.pipes (P.meaning self.old.port) number pipe (clear_run pipe.address pipe.endpoint pipe.direction pipe.limit (P.meaning self.old.port))).bus }
    {
        let clearing = opening::clear(&mut self.port, pipe);
        if clearing.tally.stop.is_none() {
            self.table
                .settle(number, pipe, Toggle::Data0, Event::Succeeded);
        } else {
            self.table
                .settle(number, pipe, pipe.toggle, Event::RecoverFailed);
        }
        clearing.tally.answer()
    }
}

// A wire: anything that exchanges bytes with the chip, in frames.
ghost use Rattle.std.specs.Prelude.{◌≡◌, ℕ, List};
ghost use Rattle.port.specs.Bus.{Bus};
ghost use Rattle.frames.specs.declared.duplexes.Duplex.{Duplex};
ghost use Rattle.frames.specs.Exchanges.{exchanged, after_exchange};

pub trait Wire {
    // what the wire leads to: the meaning of a port
    ghost meaning: { Self → Bus };

    // whether it is half or full duplex
    ghost duplex: { Self → Duplex };

    // the wire before, the bytes that it was sent, and the wire after
    ghost heard: { Self → List ℕ → Self → Type 0 };

    // Exchanges one frame in place: each byte is replaced by the answer in its place. The command byte is answered by the mode's
    // status, a byte that is put by 0, and any other data byte by the byte got. No bytes: nothing happens. Bytes past the 64
    // data bytes stay as they are and do nothing.
    fn exchange(&mut self, bytes: &mut [u8])
        ensures answers { bytes.new ≡ exchanged (duplex self.old) bytes.old (meaning self.old) }
        ensures after { meaning self.new ≡ after_exchange bytes.old (meaning self.old) }
        ensures mode { duplex self.new ≡ duplex self.old }
        ensures sent { heard self.old bytes.old self.new };
}

// A port: anything that can put a byte to a register of the chip and get one from it, with just the meaning of `specs/`.
ghost use Rattle.std.specs.Prelude.{◌≡◌, length};
ghost use Rattle.port.specs.Bus.{Bus};
ghost use Rattle.port.specs.Accesses.{after_put, got, after_get, after_puts, gots, after_gets};

pub trait Port {
    // what the port stands for: the chip record, the devices on the bus and the fates to come
    ghost meaning: { Self → Bus };

    // One byte put to a register.
    fn put(&mut self, register: u8, value: u8)
        ensures { meaning self.new ≡ after_put register value (meaning self.old) };

    // One byte from a register.
    fn get(&mut self, register: u8) -> u8
        ensures value { result ≡ got register (meaning self.old) }
        ensures after { meaning self.new ≡ after_get register (meaning self.old) };

    // The bytes, one after another, put to one register.
    fn put_many(&mut self, register: u8, bytes: &[u8])
        ensures { meaning self.new ≡ after_puts register bytes.now (meaning self.old) }
    {
        for byte in bytes {
            self.put(register, *byte);
        }
    }

    // As many bytes as the slice has places, one after another, from one register.
    fn get_many(&mut self, register: u8, into: &mut [u8])
        ensures bytes { into.new ≡ gots register (length into.old) (meaning self.old) }
        ensures after { meaning self.new ≡ after_gets register (length into.old) (meaning self.old) }
    {
        for place in into.iter_mut() {
            *place = self.get(register);
        }
    }
}

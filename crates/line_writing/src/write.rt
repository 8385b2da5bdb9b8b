// Lines put into a lent slice.
ghost use Rattle.std.specs.Prelude.{◌<◌};
ghost use Rattle.lines.specs.Text.{line};
ghost use Rattle.line_writing.specs.Puts.{Puts, Room};

use crate::output::Out;

impl<'a> Out<'a> {
    // Puts the bytes of src.
    // Kept as a loop, and no copy of a slice: that would be a call of `memmove`, which the archive for C would need from outside.
    pub fn put_bytes(&mut self, src: &[u8])
        requires { Room self.old src.now }
        ensures { Puts self.old src.now self.new }
    {
        for (i, byte) in src.iter().enumerate() {
            self.bytes[self.at + i] = *byte;
        }
        self.at += src.len();
    }

    // Puts the line of a key, with its equals sign, and a value.
    // Kept with the limit of n in the clause, here and in `put_number`: it is a plain number of up to ten digits, and a type of such numbers would be made at each line that is put.
    pub fn put_line(&mut self, key: &[u8], n: u64)
        requires n_bound { n < 10000000000 }
        requires n_in_bounds { Room self.old (line key.now n) }
        ensures { Puts self.old (line key.now n) self.new }
    {
        self.put_bytes(key);
        self.put_number(n);
        self.bytes[self.at] = b'\n';
        self.at += 1;
    }
}

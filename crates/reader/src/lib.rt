// A sheet is read through one reading place, which moves on by the bits that are read: the sheet, and the bit that is read next.
// What stands at a position of a sheet is found in the modules below; the reading place asks them, and moves on.
// Over it stand functions with plain parameters: the whole pass over a sheet, and what follows a bit.
#![tactic(auto)]

ghost use Rattle.std.specs.Prelude.{◌≡◌, ◌+◌, ◌*◌, ◌/◌, length, drop};
ghost use Rattle.rules.specs.Sheet.{field, homes_from, any_spare};
ghost use Rattle.reader.specs.Place.{within, commands_within, byte_up};
ghost use Rattle.reader.specs.Found.{found_in};

mod command;
mod field;
mod row;
mod whole;

#[derive(Clone, Copy)]
pub struct Reader<'a> {
    pub sheet: &'a [u8],
    pub at: usize,
}

// What the pass over a sheet finds: the header, the homes and their spare bits, the byte at which the commands start, and whether a spare
// bit is set in one of them.
#[derive(Clone, Copy)]
pub struct Found {
    pub form: usize,
    pub nodes: usize,
    pub processes: usize,
    pub objects: usize,
    pub spare: usize,
    pub process_home: [u8; 16],
    pub object_home: [u8; 16],
    pub homes_spare: usize,
    pub start: usize,
    pub commands_spare: bool,
}

impl<'a> Reader<'a> {
    // The reading place at the sheet's first bit.
    pub fn new(sheet: &'a [u8]) -> Reader<'a>
        ensures { (result.sheet ≡ sheet.entry) × (result.at ≡ 0) }
    {
        Reader { sheet, at: 0 }
    }

    // Reads n bits, and moves on.
    pub fn read(&mut self, n: usize) -> usize
        ensures { (result ≡ field self.old.sheet.now self.old.at (within self.old.at n))
            × (self.new.sheet ≡ self.old.sheet)
            × (self.new.at ≡ self.old.at + within self.old.at n) }
    {
        let bits = field::within(self.at, n);
        let value = field::field(self.sheet, self.at, bits);
        self.at += bits;
        value
    }

    // Reads n homes, three bits for each, and moves on.
    pub fn homes(&mut self, n: usize) -> [u8; 16]
        ensures { (result ≡ homes_from self.old.sheet.now self.old.at (within self.old.at n))
            × (self.new.sheet ≡ self.old.sheet)
            × (self.new.at ≡ self.old.at + 3 * within self.old.at n) }
    {
        let count = field::within(self.at, n);
        let row = row::homes(self.sheet, self.at, count);
        self.at += 3 * count;
        row
    }

    // Reads n commands, or as many as the sheet still has whole, and moves on. Tells whether a spare bit is set in one of them. Commands lie
    // in whole bytes: at a bit inside a byte none is read.
    pub fn commands(&mut self, n: usize) -> bool
        ensures { (result ≡ any_spare (drop (self.old.at / 8) self.old.sheet.now) (commands_within (length self.old.sheet.now) self.old.at n))
            × (self.new.sheet ≡ self.old.sheet)
            × (self.new.at ≡ self.old.at + 16 * commands_within (length self.old.sheet.now) self.old.at n) }
    {
        let count = command::within(self.sheet.len(), self.at, n);
        let spare = command::any_spare(self.sheet, self.at / 8, count);
        self.at += 16 * count;
        spare
    }

    // What is left, from the next whole byte on.
    pub fn rest(self) -> &'a [u8]
        ensures { result.now ≡ drop (byte_up self.entry.at) self.entry.sheet.now }
    {
        whole::tail_at(self.sheet, self.at)
    }
}

// The whole pass, through one reading place: the header, the homes of the processes and of the objects, the spare bits to the byte's end,
// and the commands, of which a good sheet has 4,096 at most.
// The header is read as one field, and its five parts are taken out of it: form 4, nodes 3, processes 4, objects 4, spare 1.
pub fn read_sheet(s: &[u8]) -> Found
    ensures { result ≡ found_in s.now }
{
    let mut r = Reader::new(s);
    let header = r.read(16);
    let form = header / 512 / 8;
    let nodes = (header / 512) % 8 + 1;
    let processes = (header / 32) % 16 + 1;
    let objects = (header / 2) % 16 + 1;
    let spare = header % 2;
    let process_home = r.homes(processes);
    let object_home = r.homes(objects);
    let left = whole::left(r.at);
    let homes_spare = r.read(left);
    let start = r.at / 8;
    let commands_spare = r.commands(4096);
    Found {
        form,
        nodes,
        processes,
        objects,
        spare,
        process_home,
        object_home,
        homes_spare,
        start,
        commands_spare,
    }
}

// What is left of a sheet from the whole byte at or after bit `at` on.
pub fn rest_from<'a>(s: &'a [u8], at: usize) -> &'a [u8]
    ensures { result.now ≡ drop (byte_up at) s.now }
{
    Reader { sheet: s, at }.rest()
}

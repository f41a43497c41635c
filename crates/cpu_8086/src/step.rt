//! One step.

ghost use Rattle.std.specs.Prelude.{◌≡◌, ◌<◌, ◌+◌, ◌*◌, length};
ghost use Rattle.std.specs.Int.{w64, to_le_bytes};
ghost use Rattle.x86_table.specs.Spelling.{spelling};
ghost use Rattle.cpu_8086.specs.Direct.{direct, settled, with_registers};
ghost use Rattle.cpu_8086.specs.Step.{code_byte, fetched, past, Steps};

use crate::decoded::Decoded;
use crate::hardware::Hardware;
use crate::machine::{Event, KEPT, Machine};
use crate::memory::straight_address;
use x86_table::{Instr, decode};

/// Eight bytes as a number whose low byte is the first.
fn number_of(bytes: [u8; 8]) -> u64
    ensures { to_le_bytes w64 result ≡ bytes }
{
    u64::from_le_bytes(bytes)
}

impl Hardware {
    /// The byte so far behind CS:IP.
    fn code_byte(&self, distance: u16) -> u8
        ensures { result ≡ code_byte self.now distance }
    {
        self.load_byte(self.cs, self.registers.ip.wrapping_add(distance))
    }

    /// The eight bytes from CS:IP on, where an offset or an address may wrap among them.
    #[cold]
    #[inline(never)]
    #[tactic(auto, unfolding(crate::specs::Step::fetched))]
    fn fetch_wrapping(&self) -> u64
        ensures { to_le_bytes w64 result ≡ fetched self.now }
    {
        number_of([
            self.code_byte(0),
            self.code_byte(1),
            self.code_byte(2),
            self.code_byte(3),
            self.code_byte(4),
            self.code_byte(5),
            self.code_byte(6),
            self.code_byte(7),
        ])
    }

    /// The byte so far behind CS:IP, at the address that its distance from CS:IP says.
    #[tactic(auto, using(crate::proofs::FetchLaws::straight_code_byte))]
    fn straight_byte(&self, distance: usize) -> u8
        requires offset { self.now.registers.ip + distance < 65536 }
        requires address { 16 * self.now.cs + self.now.registers.ip + distance < 1048576 }
        ensures { result ≡ code_byte self.now distance }
    {
        self.byte(straight_address(self.cs, self.registers.ip) + distance)
    }

    /// The eight bytes from CS:IP on, as a number whose low byte is the first. Mostly nothing wraps among them, and
    /// they are read as they lie.
    #[tactic(auto, unfolding(crate::specs::Step::fetched))]
    #[inline(always)]
    fn fetch(&self) -> u64
        ensures { to_le_bytes w64 result ≡ fetched self.now }
    {
        let ip = self.registers.ip;
        if ip >= 0xfff8 || straight_address(self.cs, ip) >= 0xf_fff8 {
            return self.fetch_wrapping();
        }
        number_of([
            self.straight_byte(0),
            self.straight_byte(1),
            self.straight_byte(2),
            self.straight_byte(3),
            self.straight_byte(4),
            self.straight_byte(5),
            self.straight_byte(6),
            self.straight_byte(7),
        ])
    }

    /// Executes an instruction of so many bytes; after a fault IP is as it was.
    #[inline(always)]
    fn perform(&mut self, instr: &Instr, count: u16) -> Event
        requires { count ≡ length (spelling instr.now) }
        ensures state { self.new ≡ (settled self.old.registers.ip (direct (with_registers self.old (past instr.now self.old.registers)) instr.now)).0 }
        ensures event { result ≡ (settled self.old.registers.ip (direct (with_registers self.old (past instr.now self.old.registers)) instr.now)).1 }
    {
        let ip = self.registers.ip;
        self.registers.ip = ip.wrapping_add(count);
        let event = self.execute(instr);
        if let Event::Divide = event {
            self.registers.ip = ip;
        }
        event
    }

    /// Executes the instruction at CS:IP, which was decoded from the bytes that stand there.
    #[inline(always)]
    fn perform_decoded(&mut self, decoded: &Decoded) -> Event
        requires { to_le_bytes w64 decoded.now.bytes ≡ fetched self.old }
        ensures { Steps self.old self.new result }
    {
        self.perform(&decoded.instr, decoded.count)
    }
}

impl Machine {
    /// Decodes the eight bytes that stand at CS:IP, keeps what they begin with, and executes it.
    #[cold]
    #[inline(never)]
    fn step_anew(&mut self, place: usize, bytes: u64) -> Event
        requires { to_le_bytes w64 bytes ≡ fetched self.old }
        ensures { Steps self.old self.new result }
    {
        match decode(&bytes.to_le_bytes()) {
            Some((instr, count)) => {
                let decoded = Decoded {
                    bytes,
                    instr,
                    count: count as u16,
                };
                if place < self.decoded.len() {
                    self.decoded[place] = decoded;
                }
                self.hardware.perform_decoded(&decoded)
            }
            None => Event::Unknown {
                cs: self.hardware.cs,
                ip: self.hardware.registers.ip,
            },
        }
    }

    /// Executes the instruction at CS:IP.
    #[inline(always)]
    pub fn step(&mut self) -> Event
        ensures { Steps self.old self.new result }
    {
        let place = straight_address(self.hardware.cs, self.hardware.registers.ip) % KEPT;
        let bytes = self.hardware.fetch();
        if place < self.decoded.len() && self.decoded[place].bytes == bytes {
            return self.hardware.perform_decoded(&self.decoded[place]);
        }
        self.step_anew(place, bytes)
    }
}

// Little-endian numbers in a slice of bytes. Each width names its bytes one by one, as the definitions of load and store
// take them.
ghost use Rattle.std.specs.Prelude.{◌≡◌, ◌+◌, ◌≤◌, length};
ghost use Rattle.bus.specs.Access.{size};
ghost use Rattle.bus.specs.Memory.{load, store};
ghost use Rattle.parts.specs.Strip.{listed};

use bus::Width;

pub fn get(bytes: &[u8], at: usize, width: Width) -> u32
    requires { at + size width ≤ length bytes.now }
    ensures { result ≡ load (size width) (listed bytes.now) at }
{
    match width {
        Width::Byte => u32::from(bytes[at]),
        Width::Half => u32::from(u16::from_le_bytes([bytes[at], bytes[at + 1]])),
        Width::Word => u32::from_le_bytes([bytes[at], bytes[at + 1], bytes[at + 2], bytes[at + 3]]),
    }
}

pub fn put(bytes: &mut [u8], at: usize, width: Width, value: u32)
    requires { at + size width ≤ length bytes.old }
    ensures { listed bytes.new ≡ store (size width) (listed bytes.old) at value }
{
    let [first, second, third, fourth] = value.to_le_bytes();
    bytes[at] = first;
    match width {
        Width::Byte => {}
        Width::Half => bytes[at + 1] = second,
        Width::Word => {
            bytes[at + 1] = second;
            bytes[at + 2] = third;
            bytes[at + 3] = fourth;
        }
    }
}

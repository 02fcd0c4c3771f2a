//! Addresses as text.
ghost use Rattle.std.specs.Prelude.{◌≡◌, ◌+◌, ◌++◌, ◌<◌, ◌≤◌, length, codes, decimal};
ghost use Rattle.std.specs.Char.{digit_char};
ghost use Rattle.std.specs.Net.Addr.{ipv4_octets, ipv6_segments};
ghost use Rattle.std.specs.Net.Text.{ipv4_text};
ghost use Rattle.http_service.specs.Line.{group, host, ipv6};

use arrayvec::ArrayVec;
use itoa::Buffer;
use std::net::{IpAddr, Ipv4Addr, Ipv6Addr};

/// The length of the longest address, in bytes.
pub const MAX_HOST_LENGTH: usize = 39;

type Host = ArrayVec<u8, MAX_HOST_LENGTH>;

/// Returns an address, or a dash if there is none.
pub fn host(peer: Option<IpAddr>) -> Host
    ensures { result.items ≡ host peer }
{
    match peer {
        None => {
            let mut text = Host::new();
            text.push(b'-');
            text
        }
        Some(IpAddr::V4(address)) => ipv4(address),
        Some(IpAddr::V6(address)) => ipv6(address),
    }
}

fn ipv4(address: Ipv4Addr) -> Host
    ensures { result.items ≡ ipv4_text (ipv4_octets address) }
{
    let [first, second, third, fourth] = address.octets();
    let mut text = Host::new();
    push_octet(first, &mut text);
    text.push(b'.');
    push_octet(second, &mut text);
    text.push(b'.');
    push_octet(third, &mut text);
    text.push(b'.');
    push_octet(fourth, &mut text);
    text
}

fn push_octet(octet: u8, text: &mut Host)
    requires { length text.old.items + 3 ≤ 39 }
    ensures value { text.new.items ≡ text.old.items ++ decimal octet }
    ensures short { length text.new.items ≤ length text.old.items + 3 }
{
    text.try_extend_from_slice(Buffer::new().format(octet).as_bytes())
        .unwrap();
}

fn ipv6(address: Ipv6Addr) -> Host
    ensures { result.items ≡ ipv6 (ipv6_segments address) }
{
    let [first, second, third, fourth, fifth, sixth, seventh, eighth] = address.segments();
    let mut text = Host::new();
    text.try_extend_from_slice(&group(first)).unwrap();
    push_group(second, &mut text);
    push_group(third, &mut text);
    push_group(fourth, &mut text);
    push_group(fifth, &mut text);
    push_group(sixth, &mut text);
    push_group(seventh, &mut text);
    push_group(eighth, &mut text);
    text
}

/// Appends a colon and a group.
fn push_group(number: u16, text: &mut Host)
    requires { length text.old.items + 5 ≤ 39 }
    ensures value { text.new.items ≡ text.old.items ++ codes ":" ++ group number }
    ensures length { length text.new.items ≡ length text.old.items + 5 }
{
    text.push(b':');
    text.try_extend_from_slice(&group(number)).unwrap();
}

/// Returns the four hexadecimal digits of a number.
fn group(number: u16) -> [u8; 4]
    ensures value { result ≡ group number }
    ensures length { length result ≡ 4 }
{
    [
        digit(number / 0x1000),
        digit(number / 0x100 % 16),
        digit(number / 0x10 % 16),
        digit(number % 16),
    ]
}

/// Returns a hexadecimal digit.
fn digit(value: u16) -> u8
    requires { value < 16 }
    ensures { result ≡ digit_char value }
{
    let value = value as u8;
    if value < 10 {
        b'0' + value
    } else {
        b'a' - 10 + value
    }
}

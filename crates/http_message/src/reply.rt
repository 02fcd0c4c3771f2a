//! Replies, and writing them.
ghost use Rattle.std.specs.Prelude.{[], ◌≡◌, ◌≤◌, ◌+◌, ◌++◌, length, None, option_map};
ghost use Rattle.std.specs.Option.{ForSome};
ghost use Rattle.counted_io.specs.Writing.{WritesText};
ghost use Rattle.http_message.specs.Status.{text};
ghost use Rattle.http_message.specs.Reply.{allow_header, head, header, media_type, parts_of, reply_text, status_line};
ghost use Rattle.http_message.specs.declared.reply.MediaType.TheVariants.{Plain};

use crate::status::Status;
use arrayvec::ArrayVec;
use counted_io::{CountedWrite, WriteFault, write_text};
use itoa::Buffer;

// A refusal's line and its line feed.
/// The greatest number of bytes of a body that are stored in the reply itself.
pub const MAX_LEAD_LENGTH: usize = 65;

/// The greatest number of bytes of the methods in an `Allow` header.
pub const MAX_ALLOW_LENGTH: usize = 32;

// The greatest number of bytes written at once, apart from a borrowed body.
const MAX_PACKET_LENGTH: usize = 1024;

type Packet = ArrayVec<u8, MAX_PACKET_LENGTH>;

/// The media type of a body.
#[derive(Clone, Copy, PartialEq, Eq)]
pub enum MediaType {
    Plain,
    Octets,
    Csv,
    /// Features of GeoJSON, one after the other.
    Features,
    /// Prometheus' text format.
    Metrics,
}

impl MediaType {
    fn as_str(self) -> &'static str
        ensures value { result.now ≡ media_type self }
        ensures short { length result.now ≤ 25 }
    {
        match self {
            MediaType::Plain => "text/plain",
            MediaType::Octets => "application/octet-stream",
            MediaType::Csv => "text/csv",
            MediaType::Features => "application/geo+json-seq",
            MediaType::Metrics => "text/plain; version=0.0.4",
        }
    }
}

/// A reply with a body that consists of `lead` and then `rest`, which is borrowed.
#[derive(Drop)]
pub struct Reply<'a> {
    pub status: Status,
    pub media: MediaType,
    /// The methods that the path allows, if the request used another one.
    pub allow: Option<&'a str>,
    /// The part of the body that is made for this reply, like a refusal's line.
    pub lead: ArrayVec<u8, MAX_LEAD_LENGTH>,
    /// The part of the body that is borrowed, and written without a copy.
    pub rest: &'a [u8],
}

impl Reply<'_> {
    /// Returns a plain reply whose body is the status's own text.
    pub fn of_status(status: Status) -> Reply<'static>
        ensures { parts_of result ≡ record { status = status; media = Plain; allow = None; body = text status } }
    {
        Reply {
            status,
            media: MediaType::Plain,
            allow: None,
            lead: ArrayVec::new(),
            rest: status.text().as_bytes(),
        }
    }

    /// Returns the length of the body, in bytes.
    pub fn body_length(&self) -> usize
        ensures { result ≡ length (parts_of self.now).body }
    {
        self.lead.len() + self.rest.len()
    }

    /// Writes the reply in one write if it fits into a small packet, otherwise everything before `rest` in one write and `rest` in another. Doesn't
    /// retry, flush or allocate.
    pub fn write<W: CountedWrite>(&self, out: &mut W) -> Result<(), WriteFault>
        requires { ForSome (parts_of self.now).allow (λ methods. length methods ≤ MAX_ALLOW_LENGTH) }
        ensures { WritesText (reply_text (parts_of self.now)) result (W.writer out.old) (W.writer out.new) }
    {
        let mut packet = Packet::new();
        self.push_head(&mut packet);
        packet.try_extend_from_slice(self.lead.as_slice()).unwrap();
        if packet.try_extend_from_slice(self.rest).is_ok() {
            return write_text(out, packet.as_slice());
        }
        write_both(packet.as_slice(), self.rest, out)
    }

    fn push_head(&self, packet: &mut Packet)
        requires empty { packet.old.items ≡ [] }
        requires short { ForSome (parts_of self.now).allow (λ methods. length methods ≤ MAX_ALLOW_LENGTH) }
        ensures value { packet.new.items ≡ head (parts_of self.now) }
        ensures room { length packet.new.items + MAX_LEAD_LENGTH ≤ MAX_PACKET_LENGTH }
    {
        let length = self.body_length();
        push_status_line(self.status, packet);
        push_header("Content-Type", self.media.as_str(), packet);
        push_header("Content-Length", Buffer::new().format(length), packet);
        push_header("Connection", "close", packet);
        push_allow(self.allow, packet);
        push("\r\n", packet);
    }
}

#[tactic(auto, using(crate::proofs::WritingLemmas::first_failed))]
fn write_both<W: CountedWrite>(first: &[u8], second: &[u8], out: &mut W) -> Result<(), WriteFault>
    ensures { WritesText (first.now ++ second.now) result (W.writer out.old) (W.writer out.new) }
{
    write_text(out, first)?;
    write_text(out, second)
}

fn push_status_line(status: Status, packet: &mut Packet)
    requires { packet.old.items ≡ [] }
    ensures value { packet.new.items ≡ status_line status }
    ensures short { length packet.new.items ≤ 40 }
{
    push("HTTP/1.1 ", packet);
    push(Buffer::new().format(status.code().as_u16()), packet);
    push(" ", packet);
    push(status.phrase(), packet);
    push("\r\n", packet);
}

fn push_allow(methods: Option<&str>, packet: &mut Packet)
    requires short { ForSome methods (λ methods. length methods.now ≤ MAX_ALLOW_LENGTH) }
    requires room { length packet.old.items + MAX_ALLOW_LENGTH + 9 ≤ MAX_PACKET_LENGTH }
    ensures value { packet.new.items ≡ packet.old.items ++ allow_header (option_map (λ methods. methods.now) methods.entry) }
    ensures short { length packet.new.items ≤ length packet.old.items + MAX_ALLOW_LENGTH + 9 }
{
    if let Some(methods) = methods {
        push_header("Allow", methods, packet);
    }
}

fn push_header(name: &str, value: &str, packet: &mut Packet)
    requires { length packet.old.items + length name.now + length value.now + 4 ≤ MAX_PACKET_LENGTH }
    ensures { packet.new.items ≡ packet.old.items ++ header name.now value.now }
{
    push(name, packet);
    push(": ", packet);
    push(value, packet);
    push("\r\n", packet);
}

fn push(text: &str, packet: &mut Packet)
    requires { length packet.old.items + length text.now ≤ MAX_PACKET_LENGTH }
    ensures { packet.new.items ≡ packet.old.items ++ text.now }
{
    packet.try_extend_from_slice(text.as_bytes()).unwrap();
}

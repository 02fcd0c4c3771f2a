//! The statuses of replies.
ghost use Rattle.std.specs.Prelude.{◌≡◌, ◌≤◌, length};
ghost use Rattle.http_message.specs.Status.{number, phrase, text};

use http::StatusCode;

/// The status of a reply, in the order of [`Status::ALL`].
#[derive(Clone, Copy, PartialEq, Eq)]
pub enum Status {
    Ok,
    BadRequest,
    NotFound,
    MethodNotAllowed,
    LengthRequired,
    PayloadTooLarge,
    UnprocessableEntity,
    ServiceUnavailable,
}

impl Status {
    /// All statuses, each once.
    pub const ALL: [Status; 8] = [
        Status::Ok,
        Status::BadRequest,
        Status::NotFound,
        Status::MethodNotAllowed,
        Status::LengthRequired,
        Status::PayloadTooLarge,
        Status::UnprocessableEntity,
        Status::ServiceUnavailable,
    ];

    pub fn code(self) -> StatusCode
        ensures { result ≡ number self }
    {
        match self {
            Status::Ok => StatusCode::OK,
            Status::BadRequest => StatusCode::BAD_REQUEST,
            Status::NotFound => StatusCode::NOT_FOUND,
            Status::MethodNotAllowed => StatusCode::METHOD_NOT_ALLOWED,
            Status::LengthRequired => StatusCode::LENGTH_REQUIRED,
            Status::PayloadTooLarge => StatusCode::PAYLOAD_TOO_LARGE,
            Status::UnprocessableEntity => StatusCode::UNPROCESSABLE_ENTITY,
            Status::ServiceUnavailable => StatusCode::SERVICE_UNAVAILABLE,
        }
    }

    pub(crate) fn phrase(self) -> &'static str
        ensures value { result.now ≡ phrase self }
        ensures short { length result.now ≤ 20 }
    {
        self.code().canonical_reason().unwrap_or("")
    }

    /// Returns the default body of a reply with this status.
    pub fn text(self) -> &'static str
        ensures { result.now ≡ text self }
    {
        match self {
            Status::BadRequest => "bad request\n",
            Status::NotFound => "not found\n",
            Status::MethodNotAllowed => "method not allowed\n",
            Status::LengthRequired => "length required\n",
            Status::PayloadTooLarge => "too large\n",
            Status::Ok | Status::UnprocessableEntity | Status::ServiceUnavailable => "",
        }
    }
}

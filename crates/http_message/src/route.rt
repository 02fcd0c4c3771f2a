//! The table of routes.
//!
//! A route is a row here and a place in `Route::ALL`. The router, the `Allow` header, the counts and the lines of the log follow from these.
ghost use Rattle.std.specs.Prelude.{◌≡◌, ◌≤◌, length, map, find, option_map};
ghost use Rattle.std.specs.Str.{bytes_eq};
ghost use Rattle.http_message.specs.Routes.{action_of, allow, index, row, verb_name, verb_named};

use http::Method;

/// The action that a request names by its path and method.
#[derive(Clone, Copy, PartialEq, Eq)]
pub enum Action {
    Index,
    Health,
    Verify,
    Assemble,
    Disassemble,
    Extract,
    Explain,
    Select,
    Compile,
    Geocode,
    GeocodeBatch,
    Metrics,
    Submit,
    SubmitFilter,
    List,
    Fetch,
    Drop,
}

/// A path, or the paths of all jobs, in the order of [`Route::ALL`].
#[derive(Clone, Copy, PartialEq, Eq)]
pub enum Route {
    Assemble,
    Compile,
    Disassemble,
    Explain,
    Extract,
    // Filters have routes of their own, as `/jobs` and `/extract` take bytes of any Content-Type.
    FilterJobs,
    GeocodeBatch,
    Geocode,
    Health,
    Jobs,
    Metrics,
    OpenJobs,
    Select,
    Verify,
    Index,
    Job,
}

/// A row of the table.
#[derive(Clone, Copy)]
struct RouteRow {
    /// The path. A name in braces stands for any one segment that isn't empty.
    path: &'static str,
    /// The methods, as in the `Allow` header.
    allow: &'static str,
    /// The action of each method.
    methods: &'static [(Verb, Action)],
}

/// A method of a route.
#[derive(Clone, Copy, PartialEq, Eq)]
pub enum Verb {
    Get,
    Post,
    Delete,
}

impl Verb {
    /// All methods of routes, each once.
    const ALL: [Verb; 3] = [Verb::Get, Verb::Post, Verb::Delete];

    /// Returns the method's name.
    pub fn name(self) -> &'static str
        ensures value { result.now ≡ verb_name self }
        ensures short { length result.now ≤ 6 }
    {
        match self {
            Verb::Get => "GET",
            Verb::Post => "POST",
            Verb::Delete => "DELETE",
        }
    }

    /// Returns the method that a text names, if a route has it.
    pub fn named(method: &[u8]) -> Option<Verb>
        ensures { result ≡ verb_named method.now }
    {
        Verb::ALL.iter().copied().find(|verb| verb.is(method))
    }

    /// Compares a request's method with this one. Methods are case-sensitive (RFC 9110, section 9.1).
    fn is(self, method: &[u8]) -> bool
        ensures { result ≡ bytes_eq (verb_name self) method.now }
    {
        match self {
            Verb::Get => method == Method::GET.as_str().as_bytes(),
            Verb::Post => method == Method::POST.as_str().as_bytes(),
            Verb::Delete => method == Method::DELETE.as_str().as_bytes(),
        }
    }
}

/// Expands to the match from a route to its row.
macro_rules! row {
    ($route:expr; $($name:ident: $path:literal $allow:literal $($verb:ident $action:ident),*;)*) => {
        match $route {
            $(Route::$name => RouteRow { path: $path, allow: $allow, methods: &[$((Verb::$verb, Action::$action)),*] },)*
        }
    };
}

impl Route {
    /// All routes, each once, in the order in which a router tries them.
    pub const ALL: [Route; 16] = [
        Route::Assemble,
        Route::Compile,
        Route::Disassemble,
        Route::Explain,
        Route::Extract,
        Route::FilterJobs,
        Route::GeocodeBatch,
        Route::Geocode,
        Route::Health,
        Route::Jobs,
        Route::Metrics,
        Route::OpenJobs,
        Route::Select,
        Route::Verify,
        Route::Index,
        Route::Job,
    ];

    fn row(self) -> RouteRow
        ensures path { result.path.now ≡ (row self).path }
        ensures short_path { length result.path.now ≤ 14 }
        ensures allow { result.allow.now ≡ allow self }
        ensures short { length result.allow.now ≤ 32 }
        ensures methods { map (λ pair. (verb_name pair.0, pair.1)) result.methods.now ≡ (row self).actions }
    {
        row!(self;
            Index: "/" "GET" Get Index;
            Health: "/health" "GET" Get Health;
            Verify: "/verify" "POST" Post Verify;
            Assemble: "/assemble" "POST" Post Assemble;
            Disassemble: "/disassemble" "POST" Post Disassemble;
            Extract: "/extract" "POST" Post Extract;
            Explain: "/explain" "POST" Post Explain;
            Select: "/select" "POST" Post Select;
            Compile: "/compile" "POST" Post Compile;
            Geocode: "/geocode" "GET" Get Geocode;
            GeocodeBatch: "/geocode-batch" "POST" Post GeocodeBatch;
            Metrics: "/metrics" "GET" Get Metrics;
            Jobs: "/jobs" "POST" Post Submit;
            FilterJobs: "/filter-jobs" "POST" Post SubmitFilter;
            OpenJobs: "/open-jobs" "GET" Get List;
            Job: "/jobs/{id}" "GET, DELETE" Get Fetch, Delete Drop;
        )
    }

    /// Returns the path, in which a name in braces stands for any one segment.
    pub fn path(self) -> &'static str
        ensures value { result.now ≡ (row self).path }
        ensures short { length result.now ≤ 14 }
    {
        self.row().path
    }

    /// Returns the action of a method on the route, or `None` if the route doesn't have the method. Methods are case-sensitive.
    pub fn action(self, method: &[u8]) -> Option<Action>
        ensures { result ≡ action_of self method.now }
    {
        action_among(self.row().methods, method)
    }

    /// Returns the methods of the route, as in the `Allow` header.
    pub fn allow(self) -> &'static str
        ensures value { result.now ≡ allow self }
        ensures short { length result.now ≤ 32 }
    {
        self.row().allow
    }
}

fn action_among(methods: &[(Verb, Action)], method: &[u8]) -> Option<Action>
    ensures { result ≡ option_map (λ pair. pair.1) (find (λ pair. bytes_eq (verb_name pair.0) method.now) methods.now) }
{
    let found = methods.iter().find(|pair| pair.0.is(method))?;
    Some(found.1)
}

/// Returns a text with a line for each route: its methods and its path.
pub fn index() -> &'static str
    ensures { result.now ≡ index }
{
    "POST /assemble
POST /compile
POST /disassemble
POST /explain
POST /extract
POST /filter-jobs
POST /geocode-batch
GET /geocode
GET /health
POST /jobs
GET /metrics
GET /open-jobs
POST /select
POST /verify
GET /
GET, DELETE /jobs/{id}
"
}
